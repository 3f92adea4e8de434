ghost use Rattle.std.specs.Prelude.{◌≡◌};

use crate::lines::{AnswerLine, DoubtLine, Ranked, VersionLine};
use std::marker::Model;

/// What the operations were answered, client after client. Contracts see them as a list.
#[derive(Debug, Drop)]
pub struct AnswerLines {
    lines: Vec<AnswerLine>,
}

impl Model for AnswerLines {
    ghost use Rattle.std.specs.Prelude.{List};
    ghost use Rattle.mn_report.specs.declared.lines.AnswerLine.{AnswerLine};

    ghost Value = { List AnswerLine };

    ghost view = { λ l. l.lines.items };
}

impl AnswerLines {
    /// It takes no memory.
    pub fn from_vec(lines: Vec<AnswerLine>) -> Self
        ensures { result ≡ lines.items }
    {
        AnswerLines { lines }
    }

    pub fn into_vec(self) -> Vec<AnswerLine>
        ensures { result.items ≡ self }
    {
        self.lines
    }

    pub fn as_slice(&self) -> &[AnswerLine]
        ensures { result.now ≡ self.now }
    {
        &self.lines
    }
}

/// The operations of a history in order. Contracts see them as a list.
#[derive(Debug, Drop)]
pub struct Ranks {
    ranks: Vec<Ranked>,
}

impl Model for Ranks {
    ghost use Rattle.std.specs.Prelude.{List};
    ghost use Rattle.mn_report.specs.declared.lines.Ranked.{Ranked};

    ghost Value = { List Ranked };

    ghost view = { λ l. l.ranks.items };
}

impl Ranks {
    /// It takes no memory.
    pub fn from_vec(ranks: Vec<Ranked>) -> Self
        ensures { result ≡ ranks.items }
    {
        Ranks { ranks }
    }

    pub fn into_vec(self) -> Vec<Ranked>
        ensures { result.items ≡ self }
    {
        self.ranks
    }

    pub fn as_slice(&self) -> &[Ranked]
        ensures { result.now ≡ self.now }
    {
        &self.ranks
    }
}

/// What became of the operations whose clients didn't learn it, in order of clients. Contracts see
/// them as a list.
#[derive(Debug, Drop)]
pub struct Outcomes {
    outcomes: Vec<DoubtLine>,
}

impl Model for Outcomes {
    ghost use Rattle.std.specs.Prelude.{List};
    ghost use Rattle.mn_report.specs.declared.lines.DoubtLine.{DoubtLine};

    ghost Value = { List DoubtLine };

    ghost view = { λ l. l.outcomes.items };
}

impl Outcomes {
    /// It takes no memory.
    pub fn from_vec(outcomes: Vec<DoubtLine>) -> Self
        ensures { result ≡ outcomes.items }
    {
        Outcomes { outcomes }
    }

    pub fn into_vec(self) -> Vec<DoubtLine>
        ensures { result.items ≡ self }
    {
        self.outcomes
    }

    pub fn as_slice(&self) -> &[DoubtLine]
        ensures { result.now ≡ self.now }
    {
        &self.outcomes
    }
}

/// The versions of a store in order of number. Contracts see them as a list.
#[derive(Debug, Drop)]
pub struct VersionLines {
    versions: Vec<VersionLine>,
}

impl Model for VersionLines {
    ghost use Rattle.std.specs.Prelude.{List};
    ghost use Rattle.mn_report.specs.declared.lines.VersionLine.{VersionLine};

    ghost Value = { List VersionLine };

    ghost view = { λ l. l.versions.items };
}

impl VersionLines {
    /// It takes no memory.
    pub fn from_vec(versions: Vec<VersionLine>) -> Self
        ensures { result ≡ versions.items }
    {
        VersionLines { versions }
    }

    pub fn into_vec(self) -> Vec<VersionLine>
        ensures { result.items ≡ self }
    {
        self.versions
    }

    pub fn as_slice(&self) -> &[VersionLine]
        ensures { result.now ≡ self.now }
    {
        &self.versions
    }
}

/// Whether each crash point was met, in order of number. Contracts see them as a list.
#[derive(Debug, Drop)]
pub struct Flags {
    flags: Vec<bool>,
}

impl Model for Flags {
    ghost use Rattle.std.specs.Prelude.{Bool, List};

    ghost Value = { List Bool };

    ghost view = { λ l. l.flags.items };
}

impl Flags {
    /// It takes no memory.
    pub fn from_vec(flags: Vec<bool>) -> Self
        ensures { result ≡ flags.items }
    {
        Flags { flags }
    }

    pub fn into_vec(self) -> Vec<bool>
        ensures { result.items ≡ self }
    {
        self.flags
    }

    pub fn as_slice(&self) -> &[bool]
        ensures { result.now ≡ self.now }
    {
        &self.flags
    }
}
