//! The record of an exchange, by the first message that is lost.

ghost use Rattle.std.specs.Prelude.{◌≡◌, ℕ, length};
ghost use Rattle.bench_types.specs.declared.exchanges.Fate.TheVariants as fate;
ghost use Rattle.model.specs.Deltas.{DeltaView};
ghost use Rattle.model.specs.Exchanged.{last_fate, sent_until};

use bench_types::{Fate, Record};

/// How many entries a delta has, and how many candidates were cut.
#[derive(Clone, Copy, Debug, PartialEq, Eq)]
pub struct DeltaCounts {
    pub sent: u32,
    pub cut: u32,
}

/// The record where the first message was lost, of which the size is given.
pub fn sent_before_an_answer(digest1: u32) -> Record
    ensures { (size2 : ℕ) (back forth : DeltaView) → result ≡ sent_until fate.Lost1 digest1 size2 back forth }
{
    Record {
        digest1,
        digest2: 0,
        back: 0,
        forth: 0,
        back_cut: 0,
        forth_cut: 0,
        fate: Fate::Lost1,
    }
}

/// The record where the second message was lost.
pub fn sent_back(digest1: u32, digest2: u32, back: DeltaCounts) -> Record
    ensures { (b f : DeltaView) → back.sent ≡ length b.items → back.cut ≡ b.cut
        → result ≡ sent_until fate.Lost2 digest1 digest2 b f }
{
    Record {
        digest1,
        digest2,
        back: back.sent,
        forth: 0,
        back_cut: back.cut,
        forth_cut: 0,
        fate: Fate::Lost2,
    }
}

/// The record where all three messages were sent, of which the third may have been lost.
pub fn sent_both(
    digest1: u32,
    digest2: u32,
    back: DeltaCounts,
    forth: DeltaCounts,
    lost3: bool,
) -> Record
    ensures { (b f : DeltaView) → back.sent ≡ length b.items → back.cut ≡ b.cut
        → forth.sent ≡ length f.items → forth.cut ≡ f.cut
        → result ≡ sent_until (last_fate lost3) digest1 digest2 b f }
{
    Record {
        digest1,
        digest2,
        back: back.sent,
        forth: forth.sent,
        back_cut: back.cut,
        forth_cut: forth.cut,
        fate: if lost3 { Fate::Lost3 } else { Fate::Ok },
    }
}
