// The four parts of an image, each read where it stands.
ghost use Rattle.std.specs.Prelude.{◌≡◌};
ghost use Rattle.rules.specs.Image.{part, parts_of};
ghost use Rattle.records.specs.Parts.{as_parts};

// The four parts, "read where they stand in the image".
#[derive(Clone, Copy)]
pub struct Parts<'a> {
    pub procedures: &'a [u8],
    pub variables: &'a [u8],
    pub nodes: &'a [u8],
    pub constants: &'a [u8],
}

// What an image has between two offsets; what is not there is not read.
pub fn part<'a>(image: &'a [u8], from: u16, end: u16) -> &'a [u8]
    ensures { result.now ≡ part image.now from end }
{
    let stop = image.len().min(usize::from(end));
    let start = stop.min(usize::from(from));
    &image[start..stop]
}

// The four parts of an image, by the offsets that its header has.
pub fn parts_of<'a>(image: &'a [u8]) -> Parts<'a>
    ensures { as_parts result ≡ parts_of image.now }
{
    let h = crate::header_of(image);
    Parts {
        procedures: part(image, h.procedure_part, h.variable_part),
        variables: part(image, h.variable_part, h.node_part),
        nodes: part(image, h.node_part, h.constant_part),
        constants: part(image, h.constant_part, h.total),
    }
}
