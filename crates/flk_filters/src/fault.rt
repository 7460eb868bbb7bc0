// Why nothing is made of an input.
use pal_asm::AsmFault;
use slb_image::ImageFault;

/// Why an input is not of its filter's form.
#[derive(Clone, Copy, Debug, PartialEq, Eq)]
pub enum BadInput {
    /// It has more than 1,048,576 bytes, or it spells more than 49,120 bytes of code to be listed.
    TooLong,
    /// It is no hexadecimal.
    Hex,
    /// It is no assembler text, and this is its first fault.
    Assembly(AsmFault),
    /// It is no image, for this reason.
    NotImage(ImageFault),
    /// It is no line of `verify`.
    VerifyLine,
    /// It is a line of `verify`, and the quote is not that of the session.
    Denied,
}

/// Why nothing is made of an input.
#[derive(Clone, Copy)]
pub(crate) enum FilterFault {
    /// It is not of the filter's form.
    Bad(BadInput),
    /// Memory ran out.
    NoMemory,
}
