// The printed lines of answers and refusals, to a sink. Each line is one text to it.
ghost use Rattle.dev_model.specs.Counts.{Counts};
ghost use Rattle.dev_model.specs.Streams.{Says};
ghost use Rattle.table_model.specs.Text.{rows_text, answer_text, refused_text};
ghost use Rattle.script_lang.specs.Views.{reply_of};

use crate::commands::Answer;
use crate::printed_line::PrintedLine;
use dev_model::{Failed, Sink, send_all};
use geo_base::Row;
use table_model::Why;

fn print_rows<K: Sink>(out: &mut K, rows: &[Row]) -> Result<(), Failed>
    ensures counts { Counts (K.fault_count out.old) (K.fault_count out.new) result }
    ensures told { Says (K.taken out.old) (K.taken out.new) (rows_text rows.now) result }
{
    for row in rows {
        if let Err(e) = send_all(out, PrintedLine::row(row).bytes()) {
            return Err(e);
        }
    }
    Ok(())
}

/// Writes the lines of an answer that has this place and lane. `Failed` where the sink's count of faults rose; then
/// a front of the lines is out.
pub fn print_answer<K: Sink>(
    out: &mut K,
    place: u64,
    lane: u32,
    answer: &Answer,
) -> Result<(), Failed>
    ensures counts { Counts (K.fault_count out.old) (K.fault_count out.new) result }
    ensures told { Says (K.taken out.old) (K.taken out.new) (answer_text place lane (reply_of answer.now)) result }
{
    if let Err(e) = send_all(out, PrintedLine::answer(place, lane, answer).bytes()) {
        return Err(e);
    }
    if let Answer::Rows(rows) = answer {
        return print_rows(out, rows.as_slice());
    }
    Ok(())
}

/// Writes the line of a refused command of this lane. `Failed` where the sink's count of faults rose; then a front of
/// the line is out.
pub fn print_refused<K: Sink>(out: &mut K, lane: u32, why: Why) -> Result<(), Failed>
    ensures counts { Counts (K.fault_count out.old) (K.fault_count out.new) result }
    ensures told { Says (K.taken out.old) (K.taken out.new) (refused_text lane why) result }
{
    send_all(out, PrintedLine::refused(lane, why).bytes())
}
