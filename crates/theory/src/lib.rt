// The theory of values, runs, reach and rings, and of builds over a store. Its statements stand in the definitions; these functions owe their proofs.
#![tactic(auto)]

ghost use Rattle.theory.specs.BuildLaws.{BuildsExist, CutShort, FewAskings, OneBuild, ReferenceFits, SecondRunsNothing, StaysHonest, StaysWithin};
ghost use Rattle.theory.specs.Laws.{BoundEnough, HonestUsable, LooksNoFurther, NoNewRing, OneValue, RingExactly};
ghost use Rattle.theory.specs.Worked.{WorkedDay};

pub fn laws()
    ensures bound_enough { BoundEnough }
    ensures one_value { OneValue }
    ensures honest_usable { HonestUsable }
    ensures looks_no_further { LooksNoFurther }
    ensures no_new_ring { NoNewRing }
    ensures ring_exactly { RingExactly }
{}

pub fn build_laws()
    ensures one_build { OneBuild }
    ensures second_runs_nothing { SecondRunsNothing }
    ensures cut_short { CutShort }
    ensures stays_honest { StaysHonest }
    ensures stays_within { StaysWithin }
    ensures few_askings { FewAskings }
    ensures builds_exist { BuildsExist }
    ensures reference_fits { ReferenceFits }
{}

// One day at a desk of eight items, row by row.
pub fn worked_day()
    ensures { WorkedDay }
{}
