// The writing of records.
ghost use Rattle.std.specs.Prelude.{◌≡◌, ◌+◌, ◌*◌, ◌≤◌, ◌++◌, length, take, drop, IfOk};
ghost use Rattle.std.specs.List.{AllByRecursion};
ghost use Rattle.partitions.specs.Buildable.{Buildable};
ghost use Rattle.records.specs.Format.{trailer_bytes, field_bytes, record_bytes, IdFits, FieldFits, RecordOf};
ghost use Rattle.records.specs.SameRecord.{SameRecordExactlyWhenEqual};
ghost use Rattle.records.specs.Written.{Written};

use crate::entry::{entry_len, flag_bytes, put, put_entry};
use crate::fault::RecordFault;
use crate::recorded::Recorded;

// The bytes of a trailer.
const TRAILER_LEN: usize = 8;

// Writes the record to the front of the output, and answers its length.
// kept: fixed memory, the caller's output
pub fn write<R: Recorded>(plan: &R, out: &mut [u8]) -> Result<usize, RecordFault>
    ensures written { Written (record_bytes (R.Recorded.plan plan.now)) out.old out.new result }
    ensures of_plan { IfOk result (λ n. RecordOf (take n out.new) (R.Recorded.plan plan.now)) }
    ensures same { SameRecordExactlyWhenEqual }
{
    let distance = body_len(plan);
    if out.len() < distance + TRAILER_LEN {
        return Err(RecordFault::MemoryShort);
    }
    let at = put_entries(plan, out);
    Ok(put(&trailer_of(plan, distance as u16), out, at))
}

// The length of the record.
pub fn record_len<R: Recorded>(plan: &R) -> usize
    ensures { result ≡ length (record_bytes (R.Recorded.plan plan.now)) }
{
    body_len(plan) + TRAILER_LEN
}

// Writes the entries to the front of the output, and answers their length.
fn put_entries<R: Recorded>(plan: &R, out: &mut [u8]) -> usize
    requires { length (field_bytes (R.Recorded.plan plan.now).fields) ≤ length out.old }
    ensures len { result ≡ length (field_bytes (R.Recorded.plan plan.now).fields) }
    ensures after { out.new ≡ field_bytes (R.Recorded.plan plan.now).fields ++ drop result out.old }
{
    let mut at = 0;
    for field in plan.entries() {
        at += put_entry(&field, &mut out[at..]);
    }
    at
}

// The trailer's bytes.
fn trailer_of<R: Recorded>(plan: &R, distance: u16) -> [u8; 8]
    ensures bytes { result ≡ trailer_bytes (R.Recorded.plan plan.now).spec_id (length (R.Recorded.plan plan.now).fields) distance }
    ensures fits { IdFits (R.Recorded.plan plan.now).spec_id }
{
    let id = flag_bytes(plan.recorded_id());
    let count = plan.entry_count() as u8;
    let back = distance.to_be_bytes();
    // kept: no plainer, because arrays have no concatenation that gives an array
    [id[0], id[1], id[2], id[3], id[4], count, back[0], back[1]]
}

// The length of the entries.
fn body_len<R: Recorded>(plan: &R) -> usize
    ensures len { result ≡ length (field_bytes (R.Recorded.plan plan.now).fields) }
    ensures short { result ≤ 159 * 64 }
    ensures each { AllByRecursion FieldFits (R.Recorded.plan plan.now).fields }
    ensures buildable { Buildable (R.Recorded.plan plan.now).fields }
{
    let mut len = 0;
    // kept: no plainer as a sum, whose bound comes entry by entry
    for field in plan.entries() {
        len += entry_len(&field);
    }
    len
}
