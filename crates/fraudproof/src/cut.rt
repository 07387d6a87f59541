// Cutting witnesses from their records.
ghost use Rattle.std.specs.Prelude.{◌≡◌};
ghost use Rattle.fraudproof.specs.Left.{witnesses_left};
ghost use Rattle.fraudproof.specs.Witness.{some_values, witness_in, witnesses_of};
ghost use Rattle.header.specs.Fields.{fields_of};

use crate::proof::Proof;
use crate::witness::Witness;
use header::header::Header;
use wire::kind::Kind;

// The witnesses of a proof in the block of a header, one after the other. Bytes behind the last whole record are none.
#[derive(Clone, Copy)]
pub struct Witnesses<'h, 'a> {
    header: &'h Header,
    records: &'a [u8],
}

impl<'h, 'a> Iterator for Witnesses<'h, 'a> {
    ghost use Rattle.std.specs.Iterator.{YieldsFirstBy, item_count};
    ghost use Rattle.fraudproof.specs.Left.{witnesses_left};
    ghost use Rattle.fraudproof.specs.Witness.{values_of};

    type Item = Witness<'a>;

    ghost next_gives = { YieldsFirstBy values_of witnesses_left };

    ghost remaining = { item_count witnesses_left };

    // The records were read before, or are any bytes: so what stands in their heads is not looked at.
    fn next(&mut self) -> Option<Witness<'a>> {
        let n = self.header.lengths();
        let ([_, _, _, _, _, _, low, high, axis], parts) = self.records.split_first_chunk::<9>()?;
        let (share, behind) = parts.split_at_checked(n.share)?;
        let (path, others) = behind.split_at_checked(n.path)?;
        self.records = others;
        Some(Witness {
            place: u16::from_le_bytes([*low, *high]),
            axis: *axis,
            share,
            path,
        })
    }
}

impl<'a> Proof<'a> {
    // Its witnesses in the block of header h.
    pub fn witnesses<'h>(&self, h: &'h Header) -> Witnesses<'h, 'a>
        ensures { witnesses_left result ≡ witnesses_of (fields_of h.now) self.now.witnesses.now }
    {
        Witnesses {
            header: h,
            records: self.witnesses,
        }
    }
}

// Witness i of a proof in the block of header h; none where there are not so many.
pub fn witness_of<'a>(h: &Header, p: &Proof<'a>, i: usize) -> Option<Witness<'a>>
    ensures { some_values result ≡ witness_in (fields_of h.now) p.now.witnesses.now i }
{
    // By its place: `nth` would cut all those before it too.
    let start = i.checked_mul(Kind::Witness.record_len(h))?;
    let records = p.witnesses.get(start..)?;
    Witnesses { header: h, records }.next()
}
