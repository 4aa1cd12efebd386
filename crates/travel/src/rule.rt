// Sheet rules (Q-4): TR-55 of 1986, and WinTR-55 with NEH 630 chapter 15.
ghost use Rattle.std.specs.Prelude.{◌≡◌};
ghost use Rattle.travel.specs.Rules.{Names, limit_of};

use crate::{TR55, WINTR55};

/// How far sheet flow may run, by its source.
#[derive(Clone, Copy, Debug, PartialEq, Eq)]
pub enum SheetRule {
    Tr55 = TR55 as isize,
    WinTr55 = WINTR55 as isize,
}

/// A number that is no rule.
#[derive(Clone, Copy, Debug, PartialEq, Eq)]
pub struct UnknownRule {
    pub rule: u64,
}

impl TryFrom<u64> for SheetRule {
    type Error = UnknownRule;

    ghost try_from_gives = { Names };

    fn try_from(rule: u64) -> Result<Self, UnknownRule> {
        match rule {
            TR55 => Ok(SheetRule::Tr55),
            WINTR55 => Ok(SheetRule::WinTr55),
            _ => Err(UnknownRule { rule }),
        }
    }
}

impl SheetRule {
    // How far sheet flow may run, in ft.
    pub fn limit(self) -> u64
        ensures { result ≡ limit_of self }
    {
        match self {
            SheetRule::Tr55 => 300,
            SheetRule::WinTr55 => 100,
        }
    }
}
