//! Names of rules, which are short enough to be stored inline.
ghost use Rattle.std.specs.Prelude.{◌≡◌, ◌≤◌, length, true, false, MatchOption};
ghost use Rattle.ts_core.specs.settings.SettingsFaults.{is_rule_name};

use arrayvec::ArrayString;
use std::marker::Model;
use ts_core::is_rule_name;

/// Name of a rule: 1 to 32 of `a` to `z`, `0` to `9` and `_`. Does not allocate.
#[derive(Drop)]
pub struct RuleName {
    text: ArrayString<32>,
}

impl Model for RuleName {
    ghost use Rattle.std.specs.Prelude.{◌≡◌, true};
    ghost use Rattle.ts_core.specs.facts.Facts.{Text};
    ghost use Rattle.ts_core.specs.settings.SettingsFaults.{is_rule_name};

    ghost Value = { Text };

    ghost view = { λ n. n.text.bytes };

    ghost invariant = { λ n. is_rule_name n.text.bytes ≡ true };
}

/// Copies a text of at most 32 bytes.
fn inline(text: &str) -> ArrayString<32>
    requires { length text.now ≤ 32 }
    ensures { result.bytes ≡ text.now }
{
    let mut copy = ArrayString::new();
    copy.push_str(text);
    copy
}

impl RuleName {
    /// Creates a name from a text; returns `None` if the text isn't the name of a rule.
    pub fn new(name: &str) -> Option<RuleName>
        ensures { MatchOption result (is_rule_name name.now ≡ false) (λ n. (n ≡ name.now) × (is_rule_name n ≡ true)) }
    {
        if is_rule_name(name) {
            Some(RuleName { text: inline(name) })
        } else {
            None
        }
    }

    /// Returns the text.
    pub fn as_str(&self) -> &str
        ensures value { result.now ≡ self.now }
        ensures form { is_rule_name self.now ≡ true }
    {
        self.text.as_str()
    }

    /// Returns a copy.
    pub fn clone(&self) -> RuleName
        ensures { result ≡ self.now }
    {
        RuleName {
            text: inline(self.as_str()),
        }
    }
}
