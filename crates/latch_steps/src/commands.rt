//! Groups of steps, as a trace file names them.

use table_updates::Update;

/// A group of events of one actor.
#[derive(Debug, PartialEq, Eq, Drop)]
pub enum Command<K> {
    /// The writer begins an update.
    Begin(Update),
    /// At most this many steps of the writer, up to the end of the pending update.
    Write(u32),
    /// Steps of the writer up to and with its next flip; if none remains, up to the end of the
    /// pending update.
    WriteFlip,
    /// Steps of the writer up to the end of the pending update.
    WriteEnd,
    /// A reader begins a lookup of this key.
    Start(u32, K),
    /// At most this many loads of a reader, up to the return of its lookup.
    Read(u32, u32),
}
