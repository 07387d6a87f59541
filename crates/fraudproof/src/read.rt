// Reading a proof.
ghost use Rattle.std.specs.Prelude.{◌≡◌, IfOk, OnOk};
ghost use Rattle.octets.specs.Outcome.{outcome_by};
ghost use Rattle.fraudproof.specs.Form.{Formed, Lies, case_outcome, witnesses_from};
ghost use Rattle.fraudproof.specs.Proof.{case_of};
ghost use Rattle.fraudproof.specs.Reads.{WitnessRecords, records_of};
ghost use Rattle.header.specs.Fields.{fields_of};
ghost use Rattle.wire.specs.Readers.{rest_of};
ghost use Rattle.wire.specs.Refusals.{told_read};

use crate::proof::Proof;
use header::header::Header;
use wire::due::Due;
use wire::reader::Reader;
use wire::record::Record;
use wire::refusal::ReadRefusal;

// Reads the witness records behind a claim, up to the end of the proof.
fn read_witnesses(h: &Header, mut reader: Reader) -> Result<(), ReadRefusal>
    ensures answer { outcome_by (records_of (fields_of h.now) (rest_of reader.entry)) told_read result ≡ witnesses_from (fields_of h.now) h.now.k reader.entry.at (rest_of reader.entry) }
    ensures form { OnOk result (WitnessRecords (fields_of h.now) (rest_of reader.entry)) }
{
    for _n in 0..h.k {
        reader.read(h, Due::Witness)?;
    }
    if !reader.is_at_end() {
        reader.read(h, Due::Nothing)?;
    }
    Ok(())
}

// Reads a proof in the block of a header: a claim, and then exactly k witnesses.
pub fn read_proof<'a>(h: &Header, bytes: &'a [u8]) -> Result<Proof<'a>, ReadRefusal>
    ensures answer { outcome_by (case_of (fields_of h.now)) told_read result ≡ case_outcome (fields_of h.now) bytes.now }
    ensures formed { IfOk result (Formed (fields_of h.now)) }
    ensures place { IfOk result (Lies (fields_of h.now) bytes.entry.ref_ptr) }
{
    let mut reader = Reader::new(bytes);
    let Record::Claim {
        axis,
        index,
        root,
        path,
    } = reader.read(h, Due::Claim)?
    else {
        // Where a claim is due, the reader gives no other record.
        unreachable()
    };
    let witnesses = reader.rest();
    read_witnesses(h, reader)?;
    Ok(Proof {
        axis,
        index,
        root,
        path,
        witnesses,
    })
}
