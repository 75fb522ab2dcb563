//! Deep copies of rules and settings.
ghost use Rattle.std.specs.Prelude.{◌≡◌, map, string_bytes, IfOk};

use super::{Rule, Settings};
use std::alloc::{AllocError, Allocator};

/// Copies a list of texts.
pub fn try_clone_strings<A: Allocator + Copy>(
    alloc: A,
    texts: &[String<A>],
) -> Result<Vec<String<A>, A>, AllocError>
    ensures { IfOk result (λ v. map string_bytes v.items ≡ map string_bytes texts.now) }
{
    let mut all = Vec::new(alloc);
    for text in texts {
        all.push(String::from_str(alloc, text.as_str())?)?;
    }
    Ok(all)
}

/// Copies a list of rules.
fn try_clone_rules<A: Allocator + Copy>(
    alloc: A,
    rules: &[Rule<A>],
) -> Result<Vec<Rule<A>, A>, AllocError>
    ensures { IfOk result (λ v. v.items ≡ rules.now) }
{
    let mut all = Vec::new(alloc);
    for rule in rules {
        all.push(rule.try_clone(alloc)?)?;
    }
    Ok(all)
}

impl<A: Allocator + Copy> Rule<A> {
    /// Returns a copy of the rule.
    pub fn try_clone(&self, alloc: A) -> Result<Rule<A>, AllocError>
        ensures { IfOk result (λ r. r ≡ self.now) }
    {
        Ok(Rule {
            name: String::from_str(alloc, self.name.as_str())?,
            measurement: String::from_str(alloc, self.measurement.as_str())?,
            interval: self.interval,
            offset: self.offset,
            kept_tags: try_clone_strings(alloc, self.kept_tags.as_slice())?,
            duration: self.duration,
        })
    }
}

impl<A: Allocator + Copy> Settings<A> {
    /// Returns a copy of the settings.
    pub fn try_clone(&self, alloc: A) -> Result<Settings<A>, AllocError>
        ensures { IfOk result (λ s. s ≡ self.now) }
    {
        Ok(Settings {
            raw_duration: self.raw_duration,
            rules: try_clone_rules(alloc, self.rules.as_slice())?,
        })
    }
}
