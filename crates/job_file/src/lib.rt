// The file of a deck's record and rounds (RULES "Change 1"): its length, and its bytes written into an output that has room for them.
#![tactic(auto)]

ghost use Rattle.std.specs.Prelude.{◌≡◌, [], ◌∷◌, ◌++◌, ◌+◌, ◌*◌, ◌≤◌, map, pos, length};
ghost use Rattle.query.specs.Range.{posts_limit, stops_limit};
ghost use Rattle.text.specs.Ascii.{newline};
ghost use Rattle.text.specs.Decimal.{spell_int};
ghost use Rattle.write.specs.Written.{HasRoom, Overwrote, Wrote};
ghost use Rattle.deck.specs.Values.{held_axis, rect_of, place_of, stop_of};
ghost use Rattle.job.specs.File.{file_text};
ghost use Rattle.job_file.specs.Texts.{number_text, place_text, area_text, axis_text, post_text, stop_text, post_texts, stop_texts};

use deck::{AxisCosts, Deck, Place, Rect, Stop};
use write::{Decimal, Writer};

// ---- lengths

// Two numbers, each with the byte behind it.
fn place_len(p: Place) -> usize
    ensures value { result ≡ length (spell_int p.x) + length (spell_int p.y) + 2 }
    ensures upper_bound { result ≤ 44 }
{
    p.x.text_len() + p.y.text_len() + 2
}

// The line of the area.
fn area_len(r: Rect) -> usize
    ensures value { result ≡ length (area_text (rect_of r)) }
    ensures upper_bound { result ≤ 93 }
{
    5 + place_len(r.low()) + place_len(r.high())
}

// The line of axis costs: nothing where the file has none.
fn axis_len(c: AxisCosts) -> usize
    ensures value { result ≡ length (axis_text (held_axis c)) }
    ensures upper_bound { result ≤ 47 }
{
    if job::writes_axis(c) {
        5 + c.a.text_len() + c.b.text_len() + 2
    } else {
        0
    }
}

// The lines of posts.
fn posts_len(posts: &[Place]) -> usize
    requires { length posts.now ≤ posts_limit }
    ensures value { result ≡ length (post_texts (map place_of posts.now)) }
    ensures upper_bound { result ≤ length posts.now * 49 }
{
    let mut len: usize = 0;
    for post in posts {
        len += 5 + place_len(*post);
    }
    len
}

// The lines of stops.
fn stops_len(stops: &[Stop]) -> usize
    requires { length stops.now ≤ stops_limit }
    ensures value { result ≡ length (stop_texts (map stop_of stops.now)) }
    ensures upper_bound { result ≤ length stops.now * 70 }
{
    let mut len: usize = 0;
    for stop in stops {
        len += 5 + place_len(stop.at) + stop.visits.text_len() + 1;
    }
    len
}

/// How many bytes the file of a record and these rounds takes.
pub fn file_len(deck: &Deck, rounds: u64) -> usize
    requires { (deck.now.post_count ≤ posts_limit) × (deck.now.stop_count ≤ stops_limit) }
    ensures { result ≡ length (file_text deck.now rounds) }
{
    let area_line = area_len(deck.area);
    let axis_line = axis_len(deck.axis);
    let posts_line = 6 + (deck.post_count as u64).text_len() + 1;
    let posts = posts_len(deck.listed_posts());
    let stops_line = 6 + (deck.stop_count as u64).text_len() + 1;
    let stops = stops_len(deck.listed_stops());
    let rounds_line = 7 + rounds.text_len() + 1;
    area_line + axis_line + posts_line + posts + stops_line + stops + rounds_line
}

// ---- one line

// A number and the byte behind it.
fn put_number<T: Decimal>(w: &mut Writer, n: T, end: u8)
    requires { HasRoom w.old (length (T.spelling n) + 1) }
    ensures { Wrote w.old (T.spelling n ++ (end ∷ [])) w.new }
{
    w.put_decimal(n);
    w.put_byte(end);
}

// Two numbers, with a comma behind the first. Always inlined, without which writing takes longer.
#[inline(always)]
fn put_place(w: &mut Writer, p: Place, end: u8)
    requires { HasRoom w.old (length (place_text p.x p.y end)) }
    ensures { Wrote w.old (place_text p.x p.y end) w.new }
{
    put_number(w, p.x, b',');
    put_number(w, p.y, end);
}

// `posts=n`, `stops=n`, `rounds=n`: a number behind `key`.
fn put_count(w: &mut Writer, key: &[u8], n: u64)
    requires { HasRoom w.old (length (key.now ++ number_text (pos n) newline)) }
    ensures { Wrote w.old (key.now ++ number_text (pos n) newline) w.new }
{
    w.put(key);
    put_number(w, n, b'\n');
}

// `area=xlo,ylo,xhi,yhi`
fn put_area(w: &mut Writer, r: Rect)
    requires { HasRoom w.old (length (area_text (rect_of r))) }
    ensures { Wrote w.old (area_text (rect_of r)) w.new }
{
    w.put(b"area=");
    put_place(w, r.low(), b',');
    put_place(w, r.high(), b'\n');
}

// `axis=a,b`: nothing where the file has no such line.
fn put_axis(w: &mut Writer, c: AxisCosts)
    requires { HasRoom w.old (length (axis_text (held_axis c))) }
    ensures { Wrote w.old (axis_text (held_axis c)) w.new }
{
    let has_line = job::writes_axis(c);
    if has_line {
        w.put(b"axis=");
        put_number(w, c.a, b',');
        put_number(w, c.b, b'\n');
    }
}

// `post=x,y`
fn put_post(w: &mut Writer, p: Place)
    requires { HasRoom w.old (length (post_text (place_of p))) }
    ensures { Wrote w.old (post_text (place_of p)) w.new }
{
    w.put(b"post=");
    put_place(w, p, b'\n');
}

// `stop=x,y,visits`
fn put_stop(w: &mut Writer, s: Stop)
    requires { HasRoom w.old (length (stop_text (stop_of s))) }
    ensures { Wrote w.old (stop_text (stop_of s)) w.new }
{
    w.put(b"stop=");
    put_place(w, s.at, b',');
    put_number(w, s.visits, b'\n');
}

// ---- many lines

// The lines of posts.
fn put_posts(w: &mut Writer, posts: &[Place])
    requires { HasRoom w.old (length (post_texts (map place_of posts.now))) }
    ensures { Wrote w.old (post_texts (map place_of posts.now)) w.new }
{
    for post in posts {
        put_post(w, *post);
    }
}

// The lines of stops.
fn put_stops(w: &mut Writer, stops: &[Stop])
    requires { HasRoom w.old (length (stop_texts (map stop_of stops.now))) }
    ensures { Wrote w.old (stop_texts (map stop_of stops.now)) w.new }
{
    for stop in stops {
        put_stop(w, *stop);
    }
}

// ---- the file

/// Writes the file of a record and these rounds over the first bytes of `out`, which has room for it, and gives how many bytes it takes.
/// Any numbers are written, also those that a reader would refuse; the bytes of `out` behind the file stay.
pub fn put_file(deck: &Deck, rounds: u64, out: &mut [u8]) -> usize
    requires { (deck.now.post_count ≤ posts_limit) × (deck.now.stop_count ≤ stops_limit)
        × (length (file_text deck.now rounds) ≤ length out.old) }
    ensures { Overwrote out.old (file_text deck.now rounds) out.new result }
{
    let mut w = Writer::new(out);
    put_area(&mut w, deck.area);
    put_axis(&mut w, deck.axis);
    put_count(&mut w, b"posts=", deck.post_count as u64);
    put_posts(&mut w, deck.listed_posts());
    put_count(&mut w, b"stops=", deck.stop_count as u64);
    put_stops(&mut w, deck.listed_stops());
    put_count(&mut w, b"rounds=", rounds);
    w.len()
}
