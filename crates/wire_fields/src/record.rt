// Records that stand in a file one after another.
ghost use Rattle.std.specs.Prelude.{◌≡◌, ℕ, List, IfOk, map, vec_len};
ghost use Rattle.wire_fields.specs.Reading.{Parsed, records_at};
ghost use Rattle.wire_fields.specs.Readers.{Gathers};

use crate::fault::Fault;
use crate::reader::Reader;
use std::alloc::Global;

// What a file of this kind holds many of.
pub trait Record<File>: Drop {
    // What a contract sees of one.
    ghost Seen: { Type 0 };

    ghost seen: { Self → Seen };

    // What stands at a place of the bytes.
    ghost stands: { List ℕ → ℕ → Parsed Seen };

    // The memory beside the reader, since most readers need none.
    fn read(reader: &mut Reader<'_>, heap: Global) -> Result<Self, Fault>
        ensures { Gathers seen stands reader.old reader.new result };
}

// A number of records.
#[tactic(auto, using(crate::proofs::Many::has_read_none, crate::proofs::Many::has_read_more, std::proofs::lemmas::List::map_push))]
pub fn read_many<File, R: Record<File>>(
    reader: &mut Reader<'_>,
    heap: Global,
    count: usize,
) -> Result<Vec<R>, Fault>
    ensures reads { Gathers (λ v. map R.seen v.items) (records_at R.stands count) reader.old reader.new result }
    ensures counted { IfOk result (λ v. vec_len v ≡ count) }
{
    let mut records = Vec::new(heap);
    for _k in 0..count {
        let next = R::read(reader, heap)?;
        records.push(next)?;
    }
    Ok(records)
}
