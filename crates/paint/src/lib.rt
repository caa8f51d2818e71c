// What it is: painting: blocks of a video page into a picture, each block's bitmap byte found by the constant table of crate `offsets`, or, where the blocks are few, by shifts and masks of the block's number.
// What it promises: the picture at exit is the definition of the page and the picture at entry: the blocks asked for as the pixel rule gives them, and no other byte changed.
// Where its definitions stand: specs/Paint.antt, by the line rule and never by the table or the masks; the laws of painting are in proofs/Painting.antt.
#![tactic(auto)]

ghost use Rattle.std.specs.Prelude.{◌≡◌, ℕ, ◌+◌, ◌-◌, ◌*◌, ◌≤◌, ◌<◌, length, take, drop};
ghost use Rattle.std.proofs.lemmas.List.Edits.{sets};
ghost use Rattle.offsets.specs.Offset.{offset_of};
ghost use Rattle.paint.specs.Paint.{block_at, paint, blocks};

// The bytes of a video page. Kept: a picture is a slice with its length in each contract. As an array made of the slice inside a caller, the proof of
// what the caller's slice holds afterwards does not close. That blocks end at 6,144 is asked of a number, as any range is.
pub type Page = [u8; 16384];

// Where the bitmap byte of block k stands in its page, by the bits of k: Y7 Y6 | Y2 Y1 Y0 | Y5 Y4 Y3 | X4 X3 X2 X1 X0 from Y7 .. Y0 X4 .. X0.
fn offset(k: usize) -> usize
    requires { k < 6144 }
    ensures { result ≡ offset_of k }
{
    k & 0x181F | (k << 3) & 0x0700 | (k >> 3) & 0x00E0
}

// Block k of the page, whose bitmap byte stands at o: eight pixels, from byte 8 k of the picture on.
fn paint_block(page: &Page, picture: &mut [u8], k: usize, o: usize, flash: bool)
    requires { (k < 6144) × (o ≡ offset_of k) × (length picture.old ≡ 49152) }
    ensures { picture.new ≡ sets picture.old (8 * k) (block_at page.now flash k) }
{
    let a = 0x1800 + k / 256 * 32 + k % 32;
    let at = 8 * k;
    picture[at..at + 8].copy_from_slice(&screen::block(page[a], page[o], flash));
}

// Blocks `from` to `to` of a page, in raster order, each with its bitmap byte where `place` says.
fn paint_by<F: Fn(usize) -> usize>(
    page: &Page,
    picture: &mut [u8],
    from: usize,
    to: usize,
    flash: bool,
    place: F,
)
    requires range { to ≤ 6144 }
    requires room { length picture.old ≡ 49152 }
    requires callable { (k : ℕ) → k < 6144 → F.pre place k }
    requires by_rule { (k o : ℕ) → k < 6144 → F.post place k o → o ≡ offset_of k }
    ensures { picture.new ≡ paint page.now flash from (to - from) picture.old }
{
    for k in from..to {
        paint_block(page, picture, k, place(k), flash);
    }
}

// Blocks `from` to `to` of a page, each offset by the rule: a few blocks cost less so than the table's 12 KB.
fn paint_few(page: &Page, picture: &mut [u8], from: usize, to: usize, flash: bool)
    requires { (to ≤ 6144) × (length picture.old ≡ 49152) }
    ensures { picture.new ≡ paint page.now flash from (to - from) picture.old }
{
    paint_by(page, picture, from, to, flash, |k| offset(k));
}

// The same by the table, which is named only here, and once.
#[tactic(auto, unfolding(offsets::specs::Offset::IsTable))]
fn paint_many(page: &Page, picture: &mut [u8], from: usize, to: usize, flash: bool)
    requires { (to ≤ 6144) × (length picture.old ≡ 49152) }
    ensures { picture.new ≡ paint page.now flash from (to - from) picture.old }
{
    let table = offsets::table();
    paint_by(page, picture, from, to, flash, |k| usize::from(table[k]));
}

// Blocks `from` to `to` of a page; how many they are. Fewer than 64 are painted by the rule, and more by the table.
pub fn paint_blocks(page: &Page, picture: &mut [u8], from: usize, to: usize, flash: bool) -> usize
    requires { (to ≤ 6144) × (length picture.old ≡ 49152) }
    ensures { (result ≡ to - from) × (picture.new ≡ paint page.now flash from (to - from) picture.old) }
{
    let count = to.saturating_sub(from);
    if count < 64 {
        paint_few(page, picture, from, to, flash);
    } else {
        paint_many(page, picture, from, to, flash);
    }
    count
}

// The same from the page that starts at `start` of the RAM.
pub fn paint_ram(
    ram: &[u8],
    start: usize,
    picture: &mut [u8],
    from: usize,
    to: usize,
    flash: bool,
) -> usize
    requires { (to ≤ 6144) × (start + 16384 ≤ length ram.now) × (length picture.old ≡ 49152) }
    ensures { (result ≡ to - from) × (picture.new ≡ paint (take 16384 (drop start ram.now)) flash from (to - from) picture.old) }
{
    let page = ram[start..start + 16384].try_into().unwrap();
    paint_blocks(page, picture, from, to, flash)
}

// The still picture: a whole page, whatever the picture held.
pub fn still(page: &[u8], picture: &mut [u8], flash: bool)
    requires { (length page.now ≡ 16384) × (length picture.old ≡ 49152) }
    ensures { picture.new ≡ blocks page.now flash 0 6144 }
{
    paint_blocks(page.try_into().unwrap(), picture, 0, 6144, flash);
}
