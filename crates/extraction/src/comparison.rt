// A proof beside the correctly extended square of its block.
ghost use Rattle.std.specs.Prelude.{◌≡◌, length};
ghost use Rattle.header.specs.Fields.{fields_of};
ghost use Rattle.header.specs.Sizes.{roots_len, square_len};

use fraud::charge::Charge;

// The square and the roots of its lines have the lengths that the block's have. That the hash is the block's is asked by the methods that
// may climb from a witness: a type parameter for it would be that of no field.
#[derive(Clone, Copy)]
pub(crate) struct Comparison<'a> {
    pub(crate) charge: Charge<'a>,
    pub(crate) square: &'a [u8],
    pub(crate) roots: &'a [u8],
    ghost squared: { length square.now ≡ square_len (fields_of charge.header.now) },
    ghost rooted: { length roots.now ≡ roots_len (fields_of charge.header.now) },
}
