//! States of the parser, each named after what may come next.
ghost use Rattle.std.specs.Prelude.{◌≡◌};
ghost use Rattle.ts_ql.specs.Reading.{clause_of, late_clause_of};

/// State of the parser within a statement, named after what may come next.
#[derive(Clone, Copy, Debug, PartialEq, Eq)]
pub(crate) enum State {
    /// SELECT, or the end of the text.
    Statement,
    Function,
    FunctionOpen,
    Field,
    FieldEnd,
    FieldType,
    FieldClose,
    AfterColumn,
    Alias,
    AfterAlias,
    Measurement,
    AfterMeasurement,
    Term,
    TagEnd,
    TagType,
    TagSign,
    TagValue,
    /// After a term outside parentheses.
    AfterTerm,
    /// After a term inside parentheses.
    NestedTerm,
    TimeSign,
    Moment,
    MomentMinus,
    NowOpen,
    NowClose,
    AfterMoment,
    MomentPlus,
    MomentLess,
    GroupBy,
    Item,
    TimeOpen,
    Interval,
    IntervalEnd,
    Offset,
    OffsetMinus,
    OffsetEnd,
    AfterTag,
    GroupTagType,
    AfterItem,
    FillOpen,
    FillOption,
    FillMinus,
    FillClose,
    AfterFill,
    /// Final state: the whole text is parsed.
    Done,
}

/// Clause of a statement.
#[derive(Clone, Copy, Debug)]
pub(crate) enum Clause {
    Select,
    Where,
    /// Time comparison in WHERE.
    Moment,
    Group,
    Fill,
    /// Between two clauses, or outside a statement.
    None,
}

impl State {
    /// Returns the clause that the state belongs to.
    pub(crate) fn clause(self) -> Clause
        ensures { result ≡ clause_of self }
    {
        match self {
            State::Function
            | State::FunctionOpen
            | State::Field
            | State::FieldEnd
            | State::FieldType
            | State::FieldClose
            | State::AfterColumn
            | State::Alias
            | State::AfterAlias
            | State::Measurement => Clause::Select,
            State::Term
            | State::TagEnd
            | State::TagType
            | State::TagSign
            | State::TagValue
            | State::AfterTerm
            | State::NestedTerm => Clause::Where,
            _ => self.late_clause(),
        }
    }

    /// Returns the clause of a state outside SELECT and tag conditions.
    fn late_clause(self) -> Clause
        ensures { result ≡ late_clause_of self }
    {
        match self {
            State::TimeSign
            | State::Moment
            | State::MomentMinus
            | State::NowOpen
            | State::NowClose
            | State::AfterMoment
            | State::MomentPlus
            | State::MomentLess => Clause::Moment,
            State::GroupBy
            | State::Item
            | State::TimeOpen
            | State::Interval
            | State::IntervalEnd
            | State::Offset
            | State::OffsetMinus
            | State::OffsetEnd
            | State::AfterTag
            | State::GroupTagType
            | State::AfterItem => Clause::Group,
            State::FillOpen | State::FillOption | State::FillMinus | State::FillClose =>
                Clause::Fill,
            _ => Clause::None,
        }
    }
}
