// A descriptor as it is handed back to a call: its words, as they lie in the store.
ghost use Rattle.fields.specs.Shown.{HasWords};

use numbers::DataFormat;
use store::{DESCRIPTOR_WORDS, Descriptor};

pub type Words = [u32; DESCRIPTOR_WORDS];

pub fn descriptor(w: &Words) -> Descriptor
    ensures { HasWords w.now result }
{
    let [kind, format, start, length, parent, depth, first] = *w;
    Descriptor {
        kind,
        format: DataFormat(format),
        start,
        length,
        parent,
        depth,
        first,
    }
}
