ghost use Rattle.std.specs.Prelude.{◌≡◌};
ghost use Rattle.wire_net.specs.Masters.{dealt, dealt_to, master_of, with_master};

use base_types::{BlockNo, InstNo};
use inst_set::InstSet;

/// The table of the masters of the 16 buckets. A block is in the bucket with the number of its remainder by 16.
#[derive(Clone, Copy, Debug, PartialEq, Eq)]
pub struct Masters {
    by_bucket: [InstNo; 16],
}

// To whom a bucket is dealt.
fn dealt_to(live: &InstSet, bucket: u8) -> InstNo
    ensures { result ≡ dealt_to live.now bucket }
{
    let count = live.count().max(1);
    match live.member(usize::from(bucket) % count) {
        Some(inst) => inst,
        None => InstNo(0),
    }
}

impl Masters {
    /// Deals the buckets to the live instances in turn, in the order of their numbers. Where nobody is live, instance 0
    /// has them.
    pub fn dealt(live: &InstSet) -> Masters
        ensures { result ≡ dealt live.now }
    {
        let to = |bucket: u8| dealt_to(live, bucket);
        Masters {
            by_bucket: [
                to(0),
                to(1),
                to(2),
                to(3),
                to(4),
                to(5),
                to(6),
                to(7),
                to(8),
                to(9),
                to(10),
                to(11),
                to(12),
                to(13),
                to(14),
                to(15),
            ],
        }
    }

    /// The master of a block.
    pub fn of(&self, block: BlockNo) -> InstNo
        ensures { result ≡ master_of self.now block }
    {
        self.by_bucket[usize::from(block.get() % 16)]
    }

    /// Gives a bucket, 0 to 15, another master. No bucket has another number.
    pub fn set(&mut self, bucket: u8, inst: InstNo)
        ensures { self.new ≡ with_master self.old bucket inst }
    {
        if bucket < 16 {
            self.by_bucket[usize::from(bucket)] = inst;
        }
    }
}
