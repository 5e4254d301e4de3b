// The worked cases, shown of the definitions that the contracts cite, in one combined result.
#![tactic(auto)]

ghost use Rattle.std.specs.Prelude.{◌≡◌};
ghost use Rattle.worked.specs.Cases.{Worked, cases};

// That this function is proved says that every worked case holds. It tells how many there are.
pub fn worked_cases() -> u8
    ensures worked { Worked }
    ensures counted { result ≡ cases }
{
    15
}
