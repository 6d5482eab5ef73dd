// Performs a command, counts what came of it, and says what is otherwise than the rules have it.
ghost use Rattle.house.specs.Deeds.{deed_of};
ghost use Rattle.random_days.specs.Counted.{CountedTold, OneMore};
ghost use Rattle.random_days.specs.Judged.{AgreedBeside, Meets};
ghost use Rattle.random_days.specs.Performed.{BuiltAgain, DoneSo, KeptSo, LeftSo, PerformedRight, PerformedWrong, WrongBuilt, WrongSo};
ghost use Rattle.std.specs.Prelude.{◌≡◌, ◌≢◌, ◌≤◌, true, Ok, Err, Decides, IfErr, OnOk, if◌then◌else◌};
ghost use Rattle.store.specs.Rows.{count_of, room_of};

use super::beside::{Beside, build_clean, is_same};
use super::drafts::{Draft, Kind};
use super::fault::Fault;
use super::tally::Tally;
use super::watched::Watched;
use house::{Command, Told};

// A build that kept all is made once more at once.
pub fn perform_judged(
    watched: &mut Watched,
    draft: Draft,
    command: &Command,
    tally: &mut Tally,
) -> Result<(), Fault>
    ensures size { watched.new.house.size ≡ watched.old.house.size }
    ensures right { OnOk result (PerformedRight watched.old.house.size (deed_of command.now) draft watched.old.house.desks.items watched.old.house.rows.items watched.old.house.ran.items watched.new.house.desks.items watched.new.house.rows.items watched.new.house.ran.items) }
    ensures wrong { IfErr result (λ fault. PerformedWrong watched.old.house.size (deed_of command.now) draft fault watched.old.house.desks.items watched.old.house.rows.items watched.old.house.ran.items) }
    ensures fault { result ≢ Err Fault.NotHonest }
    ensures counted { OneMore tally.old.commands tally.new.commands }
{
    let told = watched.perform(command);
    let beside = match draft.kind {
        Kind::Build { place } => Some(build_clean(&watched.house, place, told)),
        _ => None,
    };
    count_told(draft.kind, told, watched, beside, tally);
    judge(draft, told, watched, beside)?;
    match told {
        Told::Value(_) | Told::Ring if watched.count() == watched.due() => {
            build_again(watched, command, told, tally)
        }
        _ => Ok(()),
    }
}

fn count_told(kind: Kind, told: Told, watched: &Watched, beside: Option<Beside>, tally: &mut Tally)
    ensures commands { OneMore tally.old.commands tally.new.commands }
    ensures refusals { CountedTold told tally.old.refusals tally.new.refusals }
{
    let import = matches!(kind, Kind::Import);
    tally.commands.count();
    match told {
        Told::Refused(refusal) => {
            tally.refusals.count(refusal);
            tally.refused.count();
            tally.unchanged.count_if(watched.same_all());
            tally.disbelieved.count_if(import);
        }
        Told::Done => tally.believed.count_if(import),
        Told::Value(_) | Told::Ring => {
            let ring = matches!(told, Told::Ring);
            tally.builds.count();
            tally.rings.count_if(ring);
            tally.values.count_if(!ring);
            tally.cache_hits.count_if(watched.listed() == 0);
            if let Some(Beside { agrees, within }) = beside {
                tally.agreed.count_if(agrees);
                tally.within.count_if(within);
            }
        }
    }
}

fn judge(draft: Draft, told: Told, watched: &Watched, beside: Option<Beside>) -> Result<(), Fault>
    ensures met { OnOk result (Meets draft.expected told) }
    ensures agreed { OnOk result (AgreedBeside told beside) }
    ensures room { OnOk result (room_of watched.now.house.rows.items ≡ watched.now.house.size.room) }
    ensures in_room { OnOk result (count_of watched.now.house.rows.items ≤ watched.now.house.size.room) }
    ensures left { OnOk result (LeftSo watched.now.house.size draft.kind told watched.now.before.desks.items watched.now.before.rows.items watched.now.before.ran.items watched.now.house.desks.items watched.now.house.rows.items watched.now.house.ran.items) }
    ensures wrong { IfErr result (λ fault. WrongSo fault watched.now.house.size draft told watched.now.before.desks.items watched.now.before.rows.items watched.now.before.ran.items watched.now.house.desks.items watched.now.house.rows.items watched.now.house.ran.items) }
    ensures fault { result ≢ Err Fault.NotHonest }
{
    hold(draft.expected.meets(told), Fault::ToldOtherwise)?;
    hold(watched.in_room(), Fault::MoreThanRoom)?;
    match (told, beside) {
        (Told::Refused(_), _) => hold(watched.same_all(), Fault::RefusedWithChange),
        (Told::Done, _) => hold(done_so(draft.kind, watched), Fault::DoneOtherwise),
        (_, Some(beside)) => judge_built(watched, beside),
        (_, None) => Err(Fault::AnsweredWithoutBuild),
    }
}

fn hold(right: bool, fault: Fault) -> Result<(), Fault>
    ensures { result ≡ (if right then Ok tt else Err fault) }
{
    if right { Ok(()) } else { Err(fault) }
}

// Whether a command that is done left alone what it has nothing to do with.
fn done_so(kind: Kind, watched: &Watched) -> bool
    ensures { Decides result (DoneSo kind watched.now.before.desks.items watched.now.before.rows.items watched.now.before.ran.items watched.now.house.desks.items watched.now.house.rows.items watched.now.house.ran.items) }
{
    match kind {
        Kind::Write { .. } | Kind::Script { .. } => watched.same_ran() && watched.same_store(),
        Kind::Remove { .. } => {
            watched.same_ran()
                && watched.same_desks()
                && watched.count().saturating_add(1) == watched.old_count()
        }
        Kind::Import => {
            watched.same_ran()
                && watched.same_desks()
                && watched.same_entries()
                && watched.count() == watched.old_count().saturating_add(1)
        }
        Kind::Build { .. } => false,
    }
}

fn judge_built(watched: &Watched, beside: Beside) -> Result<(), Fault>
    ensures agrees { OnOk result (beside.agrees ≡ true) }
    ensures kept { OnOk result (KeptSo watched.now.house.size watched.now.before.desks.items watched.now.before.rows.items watched.now.house.desks.items watched.now.house.rows.items watched.now.house.ran.items) }
    ensures wrong { IfErr result (λ fault. WrongBuilt beside fault watched.now.house.size watched.now.before.desks.items watched.now.before.rows.items watched.now.house.desks.items watched.now.house.rows.items watched.now.house.ran.items) }
    ensures fault { result ≢ Err Fault.NotHonest }
{
    hold(beside.agrees, Fault::AnotherAnswer)?;
    hold(beside.within, Fault::RanMore)?;
    let kept = watched.count() == watched.due().min(watched.house.size.room);
    hold(
        watched.same_desks() && watched.same_entries() && kept,
        Fault::KeptOtherwise,
    )
}

// The same answer, and nothing is run.
fn build_again(
    watched: &mut Watched,
    command: &Command,
    told: Told,
    tally: &mut Tally,
) -> Result<(), Fault>
    ensures size { watched.new.house.size ≡ watched.old.house.size }
    ensures again { OnOk result (BuiltAgain watched.old.house.size (deed_of command.now) told watched.old.house.desks.items watched.old.house.rows.items watched.old.house.ran.items watched.new.house.desks.items watched.new.house.rows.items watched.new.house.ran.items) }
    ensures wrong { IfErr result (λ fault. fault ≡ Fault.RanAgain) }
    ensures fault { result ≢ Err Fault.NotHonest }
    ensures counted { tally.new.commands ≡ tally.old.commands }
{
    let again = watched.perform(command);
    let same = watched.same_desks()
        && watched.same_store()
        && watched.listed() == 0
        && is_same(told, again);
    tally.again.count();
    tally.again_hits.count_if(same);
    hold(same, Fault::RanAgain)
}
