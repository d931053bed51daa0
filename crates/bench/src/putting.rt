//! One step more in a book.

ghost use Rattle.std.specs.Prelude.{◌≡◌, IfOk, OnErr, OnOk};
ghost use Rattle.run_data.specs.Records.{IsValid};
ghost use Rattle.record_book.specs.StoredSteps.{IsPlaceOfRecord, with_record};

use aerie_base::{OutOfMemory, Shared};
use record_book::Book;
use run_data::Record;
use std::alloc::Global;

/// Puts a step of the model into a book where none there has its state and its reads, and answers where the one that has them stands.
pub(crate) fn put(
    alloc: Global,
    book: &mut Book,
    step: &Shared<Record>,
) -> Result<usize, OutOfMemory>
    requires { IsValid book.old.model step.now }
    ensures model { book.new.model ≡ book.old.model }
    ensures put { OnOk result (book.new.records ≡ with_record book.old.records step.now) }
    ensures place { IfOk result (IsPlaceOfRecord book.new.records step.now.before step.now.reads) }
    ensures unchanged { OnErr result (book.new.records ≡ book.old.records) }
{
    book.put(alloc, step)
}
