// Falling order in place, by insertion.
ghost use Rattle.std.specs.Prelude.{◌≡◌, ◌∷◌, ◌++◌, ◌+◌, ◌≤◌, ◌<◌, length, take, drop};
ghost use Rattle.floats.specs.Words.{◌‼◌};
ghost use Rattle.eigen.specs.Kept.{insert, falling, large};

use floats::signs::comes_before;

// Where x belongs among the numbers of d, which fall.
fn place(d: &[f64], x: f64) -> usize
    ensures { (result ≤ length d.now) × (insert x d.now ≡ take result d.now ++ (x ∷ drop result d.now)) }
{
    d.iter()
        .position(|y| comes_before(*y, x))
        .unwrap_or(d.len())
}

// d[i] goes into its place among the i numbers before it, which fall; those behind it move on.
fn put_in(d: &mut [f64], i: usize)
    requires { i < length d.old }
    ensures { d.new ≡ insert (d.old ‼ i) (take i d.old) ++ drop (i + 1) d.old }
{
    let mut x = d[i];
    let p = place(&d[..i], x);
    // moved by hand: rotate_right compiles to memmove, which the archive for C does not ask of its callers
    for number in &mut d[p..i] {
        let next = *number;
        *number = x;
        x = next;
    }
    d[i] = x;
}

// The first n numbers of d, in falling order; those beyond stay.
// kept with n beside d: a longer run may be lent, and the clause says that what stands beyond n stays
pub fn order(d: &mut [f64], n: usize)
    requires { n ≤ length d.old }
    ensures { d.new ≡ falling d.old n ++ drop n d.old }
{
    // kept as an index loop: i is how many numbers fall already, and no element is read here
    for i in 0..n {
        put_in(d, i);
    }
}

// What an eigenvalue exceeds to be kept.
const KEPT_ABOVE: f64 = 1e-10;

// The first m numbers of d that exceed that, in their order, into the front of `kept`; how many.
pub fn keep(d: &[f64], m: usize, kept: &mut [f64]) -> usize
    requires { (m ≤ length d.now) × (m ≤ length kept.old) }
    ensures count { result ≡ length (large (take m d.now)) }
    ensures kept_after { kept.new ≡ large (take m d.now) ++ drop (length (large (take m d.now))) kept.old }
{
    let mut count = 0usize;
    for x in &d[..m] {
        // kept as a count by hand: it is the next free place, which a pass over x leaves where it was
        if *x > KEPT_ABOVE {
            kept[count] = *x;
            count += 1;
        }
    }
    count
}
