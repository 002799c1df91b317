ghost use Rattle.std.specs.Prelude.{◌≡◌};
ghost use Rattle.station.specs.Pairs.{pair_rules};
ghost use Rattle.station.specs.Records.{Records, RecordLaws};
ghost use Rattle.station.specs.declared.pairing.Pair.{Pair as Beside};
ghost use Rattle.std.proofs.Common.{rules};

use crate::kinds::Station;
use crate::letters::Letter;
use crate::pairing::Pair;
use crate::records::{RECORD_SIZE, RecordFault, Recorded};

// A kind whose records have room for the item of another kind, so that the two side by side have records too.
pub trait RecordedWith<A: Station>: Station {
    ghost together: { Records (Beside A.Item Self.Item) };

    fn letter_with() -> Letter
        ensures { result ≡ together.letter };

    fn read_with(bytes: [u8; RECORD_SIZE]) -> Result<Pair<A::Item, Self::Item>, RecordFault>
        ensures { result ≡ together.reading bytes };

    fn write_with(item: Pair<A::Item, Self::Item>) -> [u8; RECORD_SIZE]
        ensures { result ≡ together.written item };

    ghost recording: { RecordLaws (pair_rules A.Station.rules Self.Station.rules).is_item together };
}

impl<A: Station, B: RecordedWith<A>> Recorded for Pair<A, B> {
    ghost records = { B.RecordedWith.together };

    ghost recording = { Prim.search rules };

    fn letter() -> Letter {
        B::letter_with()
    }

    fn read(bytes: [u8; RECORD_SIZE]) -> Result<Pair<A::Item, B::Item>, RecordFault> {
        B::read_with(bytes)
    }

    fn write(item: Pair<A::Item, B::Item>) -> [u8; RECORD_SIZE] {
        B::write_with(item)
    }
}
