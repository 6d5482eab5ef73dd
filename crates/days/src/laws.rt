// What a house promises over every list of commands. The statements stand in the definitions; this function owes their proofs.
ghost use Rattle.days.specs.Laws.{DayOne, DayTotal, DesksApart, EveryDay, GoesOne, GoesTotal, RefusalChangesNothing, StaysHonest, StaysWithin};

pub fn day_laws()
    ensures goes_total { GoesTotal }
    ensures goes_one { GoesOne }
    ensures day_total { DayTotal }
    ensures day_one { DayOne }
    ensures refusal_changes_nothing { RefusalChangesNothing }
    ensures stays_honest { StaysHonest }
    ensures stays_within { StaysWithin }
    ensures every_day { EveryDay }
    ensures desks_apart { DesksApart }
{}
