// Points of the format that are known beforehand, as one table that is proved.
#![tactic(auto)]

ghost use Rattle.points.specs.Points.{Stands};

// Every row of the table holds.
pub fn table_stands()
    ensures { Stands }
{}
