//! A reader meets the writer.

ghost use Rattle.std.specs.Prelude.{◌≡◌};
ghost use Rattle.latch_table.specs.Readers.{Met};
ghost use Rattle.latch_table.specs.Writers.{shown_updates};

use crate::readers::Reader;
use crate::rule::{LoadSequence, Meeting};
use crate::writers::Writer;
use order_laws::TreeOrder;

/// The reader then knows all updates that were shown, and remembers what it did.
pub fn meet<O: TreeOrder>(reader: Reader<O>, writer: Writer<O>) -> (Reader<O>, Writer<O>)
    requires { reader.place ≡ writer.place }
    ensures reader { (result.0.place ≡ reader.place)
        × Met reader.knowledge result.0.knowledge (shown_updates writer) }
    ensures memory { result.0.memory ≡ reader.memory }
    ensures writer { result.1 ≡ writer }
{
    let (its, other, layout, memory) = reader.into_parts();
    let Writer {
        table,
        mut seat,
        core,
        readers,
    } = writer;
    table.shared.join_seat::<Meeting>(&mut seat, other);
    let _sequence = table.shared.load::<LoadSequence<O>>(&mut seat, 0);
    let back = table.shared.split_seat::<Meeting>(&mut seat);
    (
        Reader::new(its, back, layout, memory),
        Writer {
            table,
            seat,
            core,
            readers,
        },
    )
}
