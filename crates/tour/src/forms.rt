use keys::comparison::Comparison;
use keys::partial::PartialKey;
use search::place::Placement;
use std::fmt;

/// Bytes in hexadecimal.
#[derive(Drop)]
pub struct Hex<'a>(pub &'a [u8]);

impl fmt::Display for Hex<'_> {
    fn fmt<W: fmt::Write>(&self, f: &mut fmt::Formatter<W>) -> fmt::Result {
        for byte in self.0 {
            write!(f, "{byte:02x}")?;
        }
        Ok(())
    }
}

/// A partial key: its offset, and the bits that it keeps, one by one.
#[derive(Clone, Copy)]
pub struct Kept(pub PartialKey);

impl fmt::Display for Kept {
    fn fmt<W: fmt::Write>(&self, f: &mut fmt::Formatter<W>) -> fmt::Result {
        let PartialKey {
            offset,
            length,
            bits,
        } = self.0;
        if length == 0 {
            return write!(f, "offset {offset}, then no bits");
        }
        let width = usize::from(length);
        write!(f, "offset {offset}, then {bits:0width$b}")
    }
}

/// How a sought key stands to the one fetched.
#[derive(Clone, Copy)]
pub struct Compared(pub Comparison);

impl fmt::Display for Compared {
    fn fmt<W: fmt::Write>(&self, f: &mut fmt::Formatter<W>) -> fmt::Result {
        match self.0 {
            Comparison::Equal => write!(f, "equal"),
            Comparison::Greater(offset) => write!(f, "it is greater, at offset {offset}"),
            Comparison::Less(offset) => write!(f, "it is less, at offset {offset}"),
        }
    }
}

/// Where a sought key stands in a node.
#[derive(Clone, Copy)]
pub struct Placed(pub Placement);

impl fmt::Display for Placed {
    fn fmt<W: fmt::Write>(&self, f: &mut fmt::Formatter<W>) -> fmt::Result {
        match self.0 {
            Placement::Found(place) => write!(f, "found at place {place}"),
            Placement::Place { place, offset } => write!(
                f,
                "it belongs before place {place}, at offset {offset} to the key under it"
            ),
        }
    }
}
