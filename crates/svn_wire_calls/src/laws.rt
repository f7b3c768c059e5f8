//! What holds of the editor that writes.
ghost use Rattle.svn_wire_calls.specs.Laws.{CallsAreWritten, ChunksAreOneDelta, ImagesAreOne};

use crate::editor::WireEditor;
use crate::entered::Teller;
use crate::texts::TextMap;
use std::io::{Read, Seek, Write};

/// What an editor writes of calls that are all accepted is the image of their list on the wire.
pub fn calls_are_written<W: Write, F: Read + Seek, T: Teller + TextMap>(
    _editor: &WireEditor<'_, W, F, T>,
)
    ensures { CallsAreWritten (λ e. e.writer.ghost_name) (λ e. W.contents e.writer.now) (λ e. e.teller) T.tells T.stands_for T.sums _editor.now }
{}

/// Where one thing is said of each path, and each text stands for itself, the image of calls is `wire_with`.
pub fn images_are_one()
    ensures { ImagesAreOne }
{}

/// The chunks of a text have, one after another, the bytes of one delta (`svndiff`): that of new data alone.
pub fn chunks_are_one_delta()
    ensures { ChunksAreOneDelta }
{}
