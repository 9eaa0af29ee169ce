// Bytes of a raster: a run of them in one row, and the block of the finest cells that a cell covers.
ghost use Rattle.std.specs.Prelude.{◌≡◌, ◌+◌, ◌-◌, ◌^◌, ◌≤◌, length};
ghost use Rattle.page.specs.Scaled.{IsCell};
ghost use Rattle.marks.specs.Steps.{Run, Block};

// 2^n. As a u32 in `printing`, as an i64 in `numbers`: one shift each, and one function for them all would ask a trait for it.
fn side(n: u32) -> usize
    requires { n ≤ 7 }
    ensures { result ≡ 2 ^ n }
{
    1usize << n
}

// Sets `count` bytes from `at` on.
fn paint_run(place: &mut [u8], at: usize, count: usize, colour: u8)
    requires { at + count ≤ length place.old }
    ensures { Run at count colour place.old place.new }
{
    place[at..at + count].fill(colour);
}

// Sets the bytes of the finest cells that the cell covers.
pub fn paint_block(place: &mut [u8], k: u32, level: u32, p: u32, q: u32, colour: u8)
    requires { (k ≤ 7) × IsCell k level p q × (4 ^ k ≤ length place.old) }
    ensures { Block k (k - level) p q colour place.old place.new }
{
    let stride = side(k);
    let count = side(k - level);
    let x = p as usize * count;
    let y = q as usize * count;
    for row in 0..count {
        paint_run(place, (y + row) * stride + x, count, colour);
    }
}
