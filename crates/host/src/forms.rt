// The published form of each command.
ghost use Rattle.std.specs.Prelude.{◌≡◌, slice_index};
ghost use Rattle.host.specs.Published.{published, form_with};

use crate::bodies::Body;
use apdu::{Header, Kind};

// What stands behind the header: an Le, a body or both, with lengths of one byte or of two behind a byte `00`. Every
// Le is the largest of its width. Six cases and no width beside three: the table below reads as it is published.
#[derive(Clone, Copy)]
pub(crate) enum Shape {
    ShortLe,
    ShortBody,
    ShortBoth,
    LongLe,
    LongBody,
    LongBoth,
}

// The form of a command.
#[derive(Clone, Copy)]
pub(crate) struct Form {
    pub(crate) header: Header,
    pub(crate) body: Body,
    pub(crate) shape: Shape,
}

impl Form {
    // The published form of the command of a kind; none for a command that is not one of the nine.
    pub(crate) fn of(kind: Kind) -> Option<Form>
        ensures { result ≡ published kind }
    {
        Some(match kind {
            Kind::Select => Form::new([0x00, 0xa4, 0x04, 0x00], Body::Sized(16), Shape::ShortBoth),
            Kind::Version => Form::new([0x88, 0x08, 0x00, 0x00], Body::Sized(0), Shape::ShortLe),
            Kind::Tries => Form::new([0x88, 0x16, 0x04, 0x00], Body::Sized(0), Shape::ShortLe),
            Kind::Amounts => Form::new([0x88, 0x14, 0x04, 0x00], Body::Sized(0), Shape::ShortLe),
            Kind::Last => Form::new([0x88, 0x15, 0x04, 0x00], Body::Sized(0), Shape::LongLe),
            Kind::Pin => Form::new([0x88, 0x11, 0x00, 0x00], Body::Sized(4), Shape::ShortBody),
            Kind::Sign => Form::new([0x88, 0x13, 0x04, 0x00], Body::Invoice, Shape::LongBoth),
            Kind::Export => Form::new([0x88, 0x12, 0x04, 0x00], Body::Sized(0), Shape::LongLe),
            Kind::Directive => Form::new(
                [0x88, 0x40, 0x04, 0x00],
                Body::Sized(512),
                Shape::LongBody,
            ),
            Kind::Other => return None,
        })
    }

    // A form with these four header bytes.
    fn new(header: [u8; 4], body: Body, shape: Shape) -> Form
        ensures { result ≡ form_with (slice_index header 0) (slice_index header 1) (slice_index header 2) (slice_index header 3) body shape }
    {
        Form {
            header: Header::from(header),
            body,
            shape,
        }
    }
}
