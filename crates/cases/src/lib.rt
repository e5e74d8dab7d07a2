// Worked cases of the two small tables, proved of the definitions that the contracts cite.
#![tactic(auto)]

ghost use Rattle.std.specs.Prelude.{◌≡◌};
ghost use Rattle.cases.specs.Drives.{Translated, DriveCases};
ghost use Rattle.cases.specs.Plays.{PlayCases};
ghost use Rattle.cases.specs.Surveys.{SurveyCases};
ghost use Rattle.cases.specs.Tables.{Accepted};
ghost use Rattle.cases.specs.Walks.{WalkCases};

// How many small tables there are.
pub fn worked_cases() -> u8
    ensures count { result ≡ 2 }
    ensures tables { Accepted }
    ensures plays { PlayCases }
    ensures translated { Translated }
    ensures drives { DriveCases }
    ensures surveys { SurveyCases }
    ensures walks { WalkCases }
{
    2
}
