// A compact image, put into a buffer.
ghost use Rattle.std.specs.Prelude.{◌≡◌, ◌+◌, ◌≤◌, length};
ghost use Rattle.std.specs.Option.{is_some};
ghost use Rattle.std.proofs.lemmas.List.Edits.{sets};
ghost use Rattle.format.specs.Words.{if_any};
ghost use Rattle.format.specs.Octets.{signed_octets};
ghost use Rattle.compact.specs.Meaning.{offset_octets, image_octets};

use crate::limits;
use values::Kind;

// An image in the making: the offset's two octets in front or none, then the number.
#[derive(Clone, Copy)]
pub struct Image {
    pub offset: Option<i32>,
    pub octets: usize,
    pub number: i64,
}

impl Image {
    #[tactic(auto, using(crate::proofs::Stored::image_length))]
    pub fn length(self) -> usize
        requires { length (image_octets self) ≤ 32 }
        ensures { result ≡ length (image_octets self) }
    {
        limits::front_octets(self.offset.is_some()) + self.octets
    }

    #[tactic(auto, using(crate::proofs::Stored::image_length, crate::proofs::Stored::parts_stored))]
    pub fn put(self, kind: Kind, buf: &mut [u8])
        requires { length (image_octets self) ≤ length buf.old }
        ensures { buf.new ≡ sets buf.old 0 (image_octets self) }
    {
        put_offset(buf, self.offset);
        put_number(
            kind,
            buf,
            limits::front_octets(self.offset.is_some()),
            self.octets,
            self.number,
        );
    }
}

fn put_offset(buf: &mut [u8], offset: Option<i32>)
    requires { if_any (is_some offset) 2 ≤ length buf.old }
    ensures { buf.new ≡ sets buf.old 0 (offset_octets offset) }
{
    if let Some(minutes) = offset {
        octets::put_signed::<2>(buf, 0, i64::from(minutes));
    }
}

// ---- the number, without a loop where it has a length that most values have

fn put_number(kind: Kind, buf: &mut [u8], at: usize, n: usize, x: i64)
    requires { at + n ≤ length buf.old }
    ensures { buf.new ≡ sets buf.old at (signed_octets n x) }
{
    match (kind, n) {
        (Kind::Date | Kind::DateTz, 2) => octets::put_signed::<2>(buf, at, x),
        (Kind::Date | Kind::DateTz, 3) => octets::put_signed::<3>(buf, at, x),
        (Kind::Time | Kind::TimeTz, 4) => octets::put_signed::<4>(buf, at, x),
        (Kind::Datetime | Kind::DatetimeTz, 4..=6) => octets::put_signed_4_to_6(buf, at, n, x),
        (Kind::Datetime | Kind::DatetimeTz, 7) => octets::put_signed::<7>(buf, at, x),
        _ => octets::put_signed_in(buf, at, n, x),
    }
}
