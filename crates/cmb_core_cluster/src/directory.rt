//! What a cluster looks up about its waves and its processes.

ghost use Rattle.std.specs.Prelude.{◌≡◌, None, slice_index_or};

/// A pin that reads a wave: the place of its process, and its delay.
#[derive(Clone, Copy)]
pub struct Reader {
    pub slot: u32,
    pub delay: u32,
}

/// The place of each net's wave, the nets that are driven and those that are given, and who reads each
/// given wave.
#[derive(Drop)]
pub struct Directory {
    pub places: Vec<Option<u16>>,
    pub driven: Vec<u32>,
    pub inputs: Vec<u32>,
    pub readers: Vec<Vec<Reader>>,
}

/// The place of a net's wave.
pub(crate) fn place_of(places: &[Option<u16>], net: u32) -> Option<u16>
    ensures { result ≡ slice_index_or places.now net None }
{
    let net = net as usize;
    if net < places.len() {
        places[net]
    } else {
        None
    }
}
