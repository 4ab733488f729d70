// Writing the gateway blocks of an Update from rows.
#![tactic(auto)]

ghost use Rattle.std.specs.Prelude.{◌≡◌, ℕ, true, ◌+◌, ◌*◌, ◌≤◌, ◌<◌, length, map, get_or, take, drop};
ghost use Rattle.std.proofs.lemmas.List.Edits.{sets};
ghost use Rattle.checks.specs.Lists.{every};
ghost use Rattle.octets.specs.Numbers.{word32};
ghost use Rattle.octets.specs.Written.{Written};
ghost use Rattle.nets.specs.Classes.{good_net};
ghost use Rattle.nets.specs.Rows.{Row};
ghost use Rattle.update_writing.specs.Blocks.{net_octets, host_octets, nets_octets, group_octets, block_octets, side_rows, side_octets, gateway_runs, blocks_written, internal_blocks, external_blocks};
ghost use Rattle.update_writing.specs.Writable.{most_written, good_row, ordered, writable_rows, writable_numbers};
ghost use Rattle.update_writing.specs.Steps.{agreeing, run_length};

// How many rows the writer takes.
const MOST_ROWS: usize = 128;

// A row as a caller lends it.
pub trait LentRow {
    ghost as_row: { Self → Row };

    fn net(&self) -> u32
        ensures { result ≡ (as_row self.now).net };

    fn gateway(&self) -> u32
        ensures { result ≡ (as_row self.now).gateway };

    // The distance, plus 256 if external.
    fn third(&self) -> u32
        ensures { result ≡ (as_row self.now).third };
}

// As three numbers.
impl LentRow for [u32; 3] {
    ghost as_row = { λ numbers. record { net = get_or numbers 0 0; gateway = get_or numbers 1 0; third = get_or numbers 2 0 } };

    fn net(&self) -> u32 {
        self[0]
    }

    fn gateway(&self) -> u32 {
        self[1]
    }

    fn third(&self) -> u32 {
        self[2]
    }
}

// As a C host lends it: the same numbers, four octets each.
impl LentRow for [u8; 12] {
    ghost as_row = { λ octets. record { net = word32 octets 0; gateway = word32 octets 4; third = word32 octets 8 } };

    fn net(&self) -> u32 {
        octets::word32_at(self, 0)
    }

    fn gateway(&self) -> u32 {
        octets::word32_at(self, 4)
    }

    fn third(&self) -> u32 {
        octets::word32_at(self, 8)
    }
}

// Where the blocks of an Update end in the buffer, and the two counts of its head.
#[derive(Clone, Copy)]
pub struct Blocks {
    pub end: usize,
    pub internal: u8,
    pub external: u8,
}

// Where a group, or its nets, end in the buffer, and how many rows they take.
#[derive(Clone, Copy)]
struct Group {
    end: usize,
    rows: usize,
}

// Where the blocks of one side end in the buffer, and how many they are.
#[derive(Clone, Copy)]
struct Side {
    end: usize,
    count: u8,
}

// Whether a row has a net of class A, B or C, a gateway on the common net, and at most this third number.
fn is_good_row<R: LentRow>(common: u32, most: u32, row: &R) -> bool
    ensures { result ≡ good_row common most (R.as_row row.now) }
{
    nets::good_net(row.net()) && nets::on_net(common, row.gateway()) && row.third() <= most
}

// A row's gateway and third number in one.
fn beside<R: LentRow>(row: &R) -> u64
    ensures { (result ≡ (R.as_row row.now).gateway * 4294967296 + (R.as_row row.now).third) × ((R.as_row row.now).third < 4294967296) }
{
    u64::from(row.gateway()) * 0x1_0000_0000 + u64::from(row.third())
}

// Whether the next row has this one's gateway and third number, and a net of a class: then it is good where this one is.
fn is_as_good<R: LentRow>(row: &R, next: &R) -> bool
    ensures { result ≡ true → (common most : ℕ) → good_row common most (R.as_row row.now) ≡ true → good_row common most (R.as_row next.now) ≡ true }
{
    beside(row) == beside(next) && nets::good_net(next.net())
}

// How many rows at the front are such. Nothing else has to be tested of them, and most rows of a list are such.
fn as_good<R: LentRow>(row: &R, rows: &[R]) -> usize
    ensures upper_bound { result ≤ length rows.now }
    ensures rows_value { (common most : ℕ) → good_row common most (R.as_row row.now) ≡ true → every (good_row common most) (map R.as_row rows.now) ≡ every (good_row common most) (map R.as_row (drop result rows.now)) }
{
    rows.iter()
        .position(|next| !is_as_good(row, next))
        .unwrap_or(rows.len())
}

// Whether each of these rows is good.
pub fn are_good_rows<R: LentRow>(common: u32, most: u32, rows: &[R]) -> bool
    ensures { result ≡ every (good_row common most) (map R.as_row rows.now) }
{
    let mut rest = rows;
    while let Some((row, later)) = rest.split_first() {
        if !is_good_row(common, most, row) {
            return false;
        }
        rest = &later[as_good(row, later)..];
    }
    true
}

// Whether the writer takes these rows: none that the reader could not give, and no internal row after an external one.
fn are_writable<R: LentRow>(net: u32, rows: &[R]) -> bool
    ensures { result ≡ writable_rows net (map R.as_row rows.now) }
{
    if MOST_ROWS < rows.len() {
        return false;
    }
    let mut side = 0;
    for row in rows {
        if !is_good_row(net, 511, row) {
            return false;
        }
        if row.third() / 256 < side {
            return false;
        }
        side = row.third() / 256;
    }
    true
}

// Whether the writer takes these rows, three numbers a row.
pub fn writable(net: u32, rows: &[u32]) -> bool
    ensures { result ≡ writable_numbers net rows.now }
{
    let (rows, rest) = rows.as_chunks::<3>();
    rest.is_empty() && are_writable(net, rows)
}

// Writes the net part of a net: an octet a store, since a copy of so few octets is a call.
fn write_net(out: &mut [u8], at: usize, net: u32) -> usize
    requires { at + length (net_octets net) ≤ length out.old }
    ensures { Written (net_octets net) at out.old out.new result }
{
    let [first, second, third, _] = net.to_be_bytes();
    match nets::width_of(net) {
        1 => {
            out[at] = first;
            at + 1
        }
        2 => {
            out[at] = first;
            out[at + 1] = second;
            at + 2
        }
        3 => {
            out[at] = first;
            out[at + 1] = second;
            out[at + 2] = third;
            at + 3
        }
        _ => at,
    }
}

// Writes the host part of a gateway, the same way.
fn write_host(out: &mut [u8], at: usize, net: u32, gateway: u32) -> usize
    requires { at + length (host_octets net gateway) ≤ length out.old }
    ensures { Written (host_octets net gateway) at out.old out.new result }
{
    let [_, second, third, fourth] = gateway.to_be_bytes();
    match nets::width_of(net) {
        1 => {
            out[at] = second;
            out[at + 1] = third;
            out[at + 2] = fourth;
            at + 3
        }
        2 => {
            out[at] = third;
            out[at + 1] = fourth;
            at + 2
        }
        3 => {
            out[at] = fourth;
            at + 1
        }
        _ => {
            octets::put32(out, at, gateway);
            at + 4
        }
    }
}

// Writes the nets of the rows at the front whose third number is this one, and counts the rows on the way.
fn write_nets<R: LentRow>(out: &mut [u8], at: usize, third: u32, rows: &[R]) -> Group
    requires { at + length (nets_octets (take (agreeing (λ row. row.third) third (map R.as_row rows.now)) (map R.as_row rows.now))) ≤ length out.old }
    ensures written { Written (nets_octets (take (agreeing (λ row. row.third) third (map R.as_row rows.now)) (map R.as_row rows.now))) at out.old out.new result.end }
    ensures rows_value { result.rows ≡ agreeing (λ row. row.third) third (map R.as_row rows.now) }
{
    let mut end = at;
    let mut count = 0;
    for row in rows {
        if row.third() != third {
            return Group { end, rows: count };
        }
        end = write_net(out, end, row.net());
        count += 1;
    }
    Group { end, rows: count }
}

// Writes the first run of one distance: distance, number of nets, nets. The number is known, and stored, last.
fn write_group<R: LentRow>(out: &mut [u8], at: usize, rows: &[R]) -> Group
    requires in_bounds { (0 < length rows.now) × (length rows.now ≤ most_written) }
    requires rows_in_bounds { at + length (group_octets (take (run_length (λ row. row.third) (map R.as_row rows.now)) (map R.as_row rows.now))) ≤ length out.old }
    ensures written { Written (group_octets (take (run_length (λ row. row.third) (map R.as_row rows.now)) (map R.as_row rows.now))) at out.old out.new result.end }
    ensures rows_value { result.rows ≡ run_length (λ row. row.third) (map R.as_row rows.now) }
{
    let third = rows[0].third();
    out[at] = (third % 256) as u8;
    let group = write_nets(out, at + 2, third, rows);
    out[at + 1] = group.rows as u8;
    group
}

// Writes rows of one gateway: host, number of distances, and the groups.
fn write_block<R: LentRow>(out: &mut [u8], at: usize, net: u32, rows: &[R]) -> usize
    requires in_bounds { (0 < length rows.now) × (length rows.now ≤ most_written) }
    requires rows_in_bounds { at + length (block_octets net (map R.as_row rows.now)) ≤ length out.old }
    ensures { Written (block_octets net (map R.as_row rows.now)) at out.old out.new result }
{
    let host = write_host(out, at, net, rows[0].gateway());
    let mut end = host + 1;
    let mut count = 0;
    let mut rest = rows;
    while !rest.is_empty() {
        let group = write_group(out, end, rest);
        end = group.end;
        count += 1;
        rest = &rest[group.rows..];
    }
    out[host] = count;
    end
}

// Writes the blocks of rows of one side.
fn write_side<R: LentRow>(out: &mut [u8], at: usize, net: u32, rows: &[R]) -> Side
    requires rows_len_bound { length rows.now ≤ most_written }
    requires rows_in_bounds { at + length (side_octets net (map R.as_row rows.now)) ≤ length out.old }
    ensures written { Written (side_octets net (map R.as_row rows.now)) at out.old out.new result.end }
    ensures count_value { result.count ≡ length (gateway_runs (map R.as_row rows.now)) }
{
    let mut end = at;
    let mut count = 0;
    let mut rest = rows;
    // A run at a time: no `for` over `chunk_by` is proved in generic code (antt does not admit its `iterator-loop-block`).
    while let Some(block) = rest
        .chunk_by(|row, next| row.gateway() == next.gateway())
        .next()
    {
        end = write_block(out, end, net, block);
        count += 1;
        rest = &rest[block.len()..];
    }
    Side { end, count }
}

// How many of rows in order are internal: all, where the last one is, since internal rows stand first.
fn internal_rows<R: LentRow>(rows: &[R]) -> usize
    requires { ordered 0 (map R.as_row rows.now) ≡ true }
    ensures { result ≡ length (side_rows 0 (map R.as_row rows.now)) }
{
    let Some(last) = rows.last() else {
        return 0;
    };
    if last.third() < 256 {
        return rows.len();
    }
    rows.partition_point(|row| row.third() < 256)
}

// Writes the gateway blocks of writable rows from index `at` on, internal blocks first.
pub fn write_blocks<R: LentRow>(out: &mut [u8], at: usize, net: u32, rows: &[R]) -> Blocks
    requires net_value { (good_net net ≡ true) × (writable_rows net (map R.as_row rows.now) ≡ true) }
    requires rows_in_bounds { at + 9 * length rows.now ≤ length out.old }
    ensures out_after { out.new ≡ sets out.old at (blocks_written net (map R.as_row rows.now)) }
    ensures end_value { result.end ≡ at + length (blocks_written net (map R.as_row rows.now)) }
    ensures internal_value { result.internal ≡ internal_blocks (map R.as_row rows.now) }
    ensures external_value { result.external ≡ external_blocks (map R.as_row rows.now) }
{
    let (internal, external) = rows.split_at(internal_rows(rows));
    let internal = write_side(out, at, net, internal);
    let external = write_side(out, internal.end, net, external);
    Blocks {
        end: external.end,
        internal: internal.count,
        external: external.count,
    }
}
