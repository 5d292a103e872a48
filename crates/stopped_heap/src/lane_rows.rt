//! Looks for one of several markers at objects one after the other, whose rows were handed in one behind the other.
ghost use Rattle.std.specs.Prelude.{◌≡◌, ◌⊎◌, ℕ, ◌+◌, ◌*◌, ◌^◌, ◌<◌, ◌≤◌, true, List, length, slice_index, IfErr, IfOk, OnOk};
ghost use Rattle.heap_layout.specs.Bits.{bit};
ghost use Rattle.rest_marks.specs.Lanes.{laned, IsLaneAfterRows, IsLaneRowsFault, AreKnownMore, AreLanedIn};
ghost use Rattle.rest_marks.specs.Looks.{rows_of, AreLookedAt, AreRowsAt};
ghost use Rattle.rest_marks.specs.Meeting.{AreMet, AreOnce};

use crate::lane::Lane;
use heap_layout::Edition;
use rest_marks::{Claims, LookFault, look_known, row_at};

// Looks at the objects of the queue from number `first` on, one for each row, and answers the number of the one behind
// them.
fn look_each(
    edition: Edition,
    count: usize,
    known: &mut [u64],
    heads: &mut [u64],
    bits: &mut [u64],
    queue: &mut Vec<u32>,
    claims: &Claims,
    first: usize,
    rows: &[u64],
) -> Result<usize, LookFault>
    requires few { count ≤ 2 ^ 31 }
    requires few_bits { length bits.old ≤ 2 ^ 25 }
    requires room_bits { count ≤ 64 * length bits.old }
    requires room_known { count ≤ 64 * length known.old }
    requires room { count ≤ 64 * length heads.old }
    requires met { AreMet queue.old.items heads.old }
    requires once { AreOnce count queue.old.items }
    requires inside { first ≤ length queue.old.items }
    ensures inside { IfOk result (λ end. end ≤ length queue.new.items) }
    ensures after { IfOk result (λ end. IsLaneAfterRows (laned edition count queue.old.items first heads.old bits.old known.old)
        (rows_of edition rows.now) (length (rows_of edition rows.now)) (laned edition count queue.new.items end heads.new bits.new known.new)) }
    ensures looked { IfOk result (λ end. (words : List ℕ) → length words ≡ count
        → AreRowsAt words queue.new.items first (rows_of edition rows.now)
        → AreLookedAt edition words queue.old.items first known.old bits.old
        → AreLookedAt edition words queue.new.items end known.new bits.new) }
    ensures met { OnOk result (AreMet queue.new.items heads.new) }
    ensures once { OnOk result (AreOnce count queue.new.items) }
    ensures fault { IfErr result (IsLaneRowsFault (laned edition count queue.old.items first heads.old bits.old known.old) (rows_of edition rows.now)) }
    ensures known { length known.new ≡ length known.old }
    ensures heads { length heads.new ≡ length heads.old }
    ensures bits { length bits.new ≡ length bits.old }
{
    let mut next = first;
    let mut at = 0;
    while at < rows.len() {
        if next >= queue.len() {
            return Err(LookFault::NoSuchObject);
        }
        let i = queue[next] as usize;
        let row = row_at(edition, rows, at);
        look_known(edition, count, known, heads, bits, queue, claims, i, row)?;
        next += 1;
        at += row.len();
    }
    Ok(next)
}

impl Lane {
    /// Looks at the next objects that wait, in the order in which they wait, one for each row. The rows stand one
    /// behind the other. A row has the header, the references and the weak words of its object, as they are now, and no
    /// data words. In all words in which these stand there, and the objects at which the lane looked before are as they
    /// must be, so are those at which it looked then. The objects to which the references lead are known then; those
    /// that the lane claims wait. Err with a fault that is there: that of a row, after those before it were looked at.
    /// The lane ends then.
    pub fn look_rows(self, rows: &[u64]) -> Result<Lane, LookFault>
        ensures edition { IfOk result (λ lane. lane.own.edition ≡ self.own.edition) }
        ensures count { IfOk result (λ lane. lane.own.count ≡ self.own.count) }
        ensures waited { IfOk result (λ lane. lane.own.looked ≤ length lane.own.met) }
        ensures many { IfOk result (λ lane.
            lane.own.looked ≡ self.own.looked + length (rows_of self.own.edition rows.now)) }
        ensures stay { IfOk result (λ lane. (k : ℕ) → k < length self.own.met
            → slice_index lane.own.met k ≡ slice_index self.own.met k) }
        ensures more { IfOk result (AreKnownMore self) }
        ensures after { IfOk result (λ lane. IsLaneAfterRows self (rows_of self.own.edition rows.now)
            (length (rows_of self.own.edition rows.now)) lane) }
        ensures looked { IfOk result (λ lane. (words : List ℕ) → length words ≡ self.own.count
            → AreRowsAt words lane.own.met self.own.looked (rows_of self.own.edition rows.now)
            → AreLanedIn self words → AreLanedIn lane words) }
        ensures fault { IfErr result (IsLaneRowsFault self (rows_of self.own.edition rows.now)) }
    {
        let Lane {
            edition,
            count,
            mut known,
            mut heads,
            mut bits,
            mut queue,
            next,
            claims,
        } = self;
        let next = look_each(
            edition, count, &mut known, &mut heads, &mut bits, &mut queue, &claims, next, rows,
        )?;
        Ok(Lane {
            edition,
            count,
            known,
            heads,
            bits,
            queue,
            next,
            claims,
        })
    }
}
