// What a function puts into a sink: counted, or written into three lent sheets where they hold it.
// A sink is made where it is used: a function that made it of the sheets could not tell what these hold afterwards.
ghost use Rattle.std.specs.Prelude.{◌≡◌, ◌≤◌, length, List};
ghost use Rattle.sequence.specs.declared.Triplet.{Triplet};
ghost use Rattle.sequence.specs.Sheets.{room, laid, lays, listed, lays_if};
ghost use Rattle.sequence.specs.Laying.{PutsIntoEmpty, PutIs};

use crate::{Answer, Refusal, Sink, room};

// How many triplets `put` puts into a sink.
pub fn counted<P: Fn(&mut Sink<'_>)>(put: &P) -> usize
    requires { PutsIntoEmpty (P.pre put.now) }
    ensures { (ts : List Triplet) → PutIs (P.post put.now) ts → result ≡ length ts }
{
    let mut counter = Sink {
        rows: &mut [],
        cols: &mut [],
        values: &mut [],
        limit: 0,
        count: 0,
    };
    put(&mut counter);
    counter.count
}

// They are written into three sheets that hold `limit`, of which there are no more; how many they are.
pub fn written<P: Fn(&mut Sink<'_>)>(
    rows: &mut [u32],
    cols: &mut [u32],
    values: &mut [f64],
    limit: usize,
    put: &P,
) -> usize
    requires puts { PutsIntoEmpty (P.pre put.now) }
    requires limit_in_bounds { limit ≤ room rows.old cols.old values.old }
    ensures { (ts : List Triplet) → PutIs (P.post put.now) ts → length ts ≤ limit → laid 0 result rows.new cols.new values.new ≡ lays 0 ts rows.old cols.old values.old }
{
    let mut sink = Sink {
        rows,
        cols,
        values,
        limit,
        count: 0,
    };
    put(&mut sink);
    sink.count
}

// They are written where the sheets hold them. There are no more than `most`, and only where the sheets do not hold
// as many they are counted first.
pub fn lay<P: Fn(&mut Sink<'_>)>(
    rows: &mut [u32],
    cols: &mut [u32],
    values: &mut [f64],
    most: usize,
    put: &P,
) -> Answer
    requires { PutsIntoEmpty (P.pre put.now) }
    ensures { (ts : List Triplet) → PutIs (P.post put.now) ts → length ts ≤ most → listed result rows.new cols.new values.new ≡ lays_if ts rows.old cols.old values.old }
{
    let cap = room(rows, cols, values);
    let limit = if most <= cap { most } else { counted(put) };
    if cap < limit {
        return Err(Refusal::Short);
    }
    Ok(written(rows, cols, values, limit, put))
}
