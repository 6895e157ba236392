//! The parts of an instance that has ended.

ghost use Rattle.std.specs.Prelude.{◌≡◌, map};
ghost use Rattle.inst_loss.specs.Lost.{idle_checkpoint, lost_leading, lost_mastering, lost_session, lost_wave, stopped};

use inst_state::{
    Begun, BucketsSent, Job, Leading, Mastering, OwnWave, Recovering, Session, Table,
};
use resource_dir::Directory;
use std::alloc::Global;

// Answers a session's line, if it is under way.
fn stop(session: &mut Session)
    ensures { session.new ≡ stopped session.old }
{
    if !session.doing.is_idle() {
        session.answer();
    }
}

fn lose_session(alloc: Global, session: &mut Session)
    ensures { session.new ≡ lost_session session.old }
{
    stop(session);
    session.connected = false;
    session.own = None;
    session.standing = 0;
    session.marks.clear();
    session.job = Job::new(alloc);
}

fn lose_each(alloc: Global, sessions: &mut [Session])
    ensures { sessions.new ≡ map lost_session sessions.old }
{
    for session in sessions.iter_mut() {
        lose_session(alloc, session);
    }
}

// Stops all sessions of an instance.
#[tactic(auto, using(inst_state::proofs::Mapped::mapped_whole))]
pub(crate) fn lose_sessions(alloc: Global, sessions: &mut Table<Session>)
    ensures { sessions.new ≡ map lost_session sessions.old }
{
    lose_each(alloc, sessions.as_mut_slice());
}

fn make_idle(begun: &mut Begun)
    ensures { begun.new ≡ idle_checkpoint begun.old }
{
    begun.blocks = [false; 64];
    begun.segment = [false; 17];
    begun.pasts = [None; 64];
}

fn idle_each(checkpoints: &mut [Begun])
    ensures { checkpoints.new ≡ map idle_checkpoint checkpoints.old }
{
    for begun in checkpoints.iter_mut() {
        make_idle(begun);
    }
}

// The checkpoints of an instance wait for nothing any more.
#[tactic(auto, using(inst_state::proofs::Mapped::mapped_whole))]
fn idle_checkpoints(checkpoints: &mut Table<Begun>)
    ensures { checkpoints.new ≡ map idle_checkpoint checkpoints.old }
{
    idle_each(checkpoints.as_mut_slice());
}

pub(crate) fn lose_wave(wave: &mut OwnWave)
    ensures { wave.new ≡ lost_wave wave.old }
{
    idle_checkpoints(&mut wave.checkpoints);
}

pub(crate) fn lose_mastering(mastering: &mut Mastering)
    ensures { mastering.new ≡ lost_mastering mastering.old }
{
    mastering.directory = Directory::new();
    mastering.sent = BucketsSent {
        by_bucket: [None; 16],
    };
}

pub(crate) fn no_leading(alloc: Global) -> Leading
    ensures { result ≡ lost_leading }
{
    Leading {
        leads: false,
        adopted: Table::new(alloc),
        recovering: Recovering {
            epoch: 0,
            threads: Table::new(alloc),
            versions: Table::new(alloc),
            rebuilt: Table::new(alloc),
        },
    }
}
