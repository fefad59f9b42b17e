//! What is printed of a search.

ghost use Rattle.std.specs.Prelude.{◌≡◌, IfOk, OnErr, string_bytes};
ghost use Rattle.ldap_search.specs.Answers.{result_text};
ghost use Rattle.ldap_search.specs.Copies.{stored_text};
ghost use Rattle.ldap_search.specs.Printing.{Prints, PrintsLast};

use crate::SearchEnd;
use cascade_report::DigestedConsumer;
use hex::encode;
use ldap_ber::NoMemory;
use std::alloc::Global;
use sync_io::{Sink, write_whole};

/// Prints a text. The search ends where the output fails.
pub(crate) fn print<O: Sink>(output: &mut O, text: &[u8]) -> Option<SearchEnd>
    ensures { Prints text.now (O.bytes_held output.old) (O.write_fault_count output.old) result
        (O.bytes_held output.new) (O.write_fault_count output.new) }
{
    if write_whole(output, text) {
        return None;
    }
    Some(SearchEnd::OutputFault)
}

/// `result CODE`, which ends the search, and what was printed is passed on.
pub(crate) fn print_result<O: Sink>(
    alloc: Global,
    code: i64,
    output: &mut O,
) -> Result<SearchEnd, NoMemory>
    ensures prints { IfOk result (λ end. PrintsLast (result_text code)
        (O.bytes_held output.old) (O.write_fault_count output.old) end
        (O.bytes_held output.new) (O.write_fault_count output.new)) }
    ensures unprinted { OnErr result (output.new ≡ output.old) }
{
    let text = format!(in alloc; "result {code}\n")?;
    Ok(print_last(output, text.as_bytes()))
}

/// Prints the last text of a search, and passes on what was printed.
pub(crate) fn print_last<O: Sink>(output: &mut O, text: &[u8]) -> SearchEnd
    ensures { PrintsLast text.now
        (O.bytes_held output.old) (O.write_fault_count output.old) result
        (O.bytes_held output.new) (O.write_fault_count output.new) }
{
    if write_whole(output, text) && output.flush() {
        return SearchEnd::Done;
    }
    SearchEnd::OutputFault
}

/// `stored entries E sha256 H`: how many entries are held, and the digest of their text.
pub(crate) fn stored_line(
    alloc: Global,
    consumer: &mut DigestedConsumer,
) -> Result<String, NoMemory>
    ensures line { IfOk result (λ line. string_bytes line ≡ stored_text consumer.old.copy.held) }
    ensures same { consumer.new ≡ consumer.old }
{
    let digest = consumer.digest()?;
    let digits = encode(alloc, digest.as_slice())?;
    let count = consumer.inner().entries().len();
    format!(in alloc; "stored entries {count} sha256 {digits}\n")
}
