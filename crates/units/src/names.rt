// The names that a pair of phones tries, at the front of a buffer. A `requires` here is what the
// caller has tested.
ghost use Rattle.std.specs.Prelude.{◌≡◌, ◌≤◌, length};
ghost use Rattle.base.specs.Buffers.{over};
ghost use Rattle.units.specs.Selecting.{folded_name, joint, pair_name};

// Stores a name; with fold on, `ah` as `aa`.
fn put_name(name: &[u8], fold: bool, buf: &mut [u8])
    requires { length name.now ≤ length buf.old }
    ensures { buf.new ≡ over (folded_name fold name.now) buf.old }
{
    base::bytes::copy(name, buf);
    if fold && text::same(name, b"ah") {
        buf[1] = b'a';
    }
}

// Stores what stands between the names, and says how long it is.
fn put_joint(cluster: bool, buf: &mut [u8]) -> usize
    requires { 3 ≤ length buf.old }
    ensures { ((result ≡ length (joint cluster)) × (result ≤ 3)) ×
        (buf.new ≡ over (joint cluster) buf.old) }
{
    if cluster {
        base::bytes::copy(b"_-_", buf);
        return 3;
    }
    base::bytes::copy(b"-", buf);
    1
}

// Stores `left_-_right` for a cluster, else `left-right`, and says how long that is.
pub fn put_pair(left: &[u8], right: &[u8], cluster: bool, fold: bool, buf: &mut [u8]) -> usize
    requires { (length left.now ≤ 32) × ((length right.now ≤ 32) × (67 ≤ length buf.old)) }
    ensures { ((result ≡ length (pair_name cluster (folded_name fold left.now) (folded_name fold right.now)))
        × (result ≤ 67)) ×
        (buf.new ≡
        over (pair_name cluster (folded_name fold left.now) (folded_name fold right.now))
        buf.old) }
{
    put_name(left, fold, buf);
    let at = left.len();
    let from = at + put_joint(cluster, &mut buf[at..]);
    put_name(right, fold, &mut buf[from..]);
    from + right.len()
}
