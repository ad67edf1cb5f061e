#![tactic(auto)]
// Calls what `trees` answers and says of a tree and of its records, and what `show` says of escapes and code points, as any crate can: the programs
// call these from within. What is to be printed stands in `stdout`, by README's table of records and by hand.
use show::page::Page;
use trees::tree::Tree;

// Images with where each record starts and the first of its tree, a record a line. Of `a.b("p\nq") + [1, true]`:
static SUM: [u8; 60] = [
    6, 0, 5, 0, 0, 0, 1, b'a', //
    5, 0, 1, b'b', //
    20, 0, 6, 0, 2, 0, 3, 1, 0, //
    5, 0, 3, b'p', b'\n', b'q', //
    18, 0, 9, 0, 3, 0, 11, 0, 0, 1, 0, 0, //
    4, 0, 1, b'1', //
    3, 0, 1, 1, //
    7, 0, 2, 0, 2, //
    13, 0, 5, 3, 0, 12, 0, 13,
];

static SUM_LINKS: [usize; 18] = [0, 0, 8, 1, 12, 0, 21, 3, 27, 0, 39, 5, 43, 6, 47, 5, 52, 0];

// Of `(a.b).c?.d`.
static PATH: [u8; 47] = [
    6, 0, 5, 0, 1, 0, 2, b'a', //
    5, 0, 1, b'b', //
    20, 0, 6, 0, 3, 0, 4, 1, 0, //
    5, 0, 1, b'c', //
    20, 0, 6, 0, 6, 0, 7, 1, 0, //
    5, 0, 1, b'd', //
    20, 0, 6, 0, 9, 0, 10, 0, 1,
];

static PATH_LINKS: [usize; 14] = [0, 0, 8, 1, 12, 0, 21, 3, 25, 0, 34, 5, 38, 0];

// Of `a["x y"]`.
static INDEX: [u8; 23] = [
    6, 0, 5, 0, 0, 0, 1, b'a', //
    5, 0, 3, b'x', b' ', b'y', //
    20, 0, 6, 0, 2, 0, 7, 1, 0,
];

static INDEX_LINKS: [usize; 6] = [0, 0, 8, 1, 14, 0];

// Of `[123451, 123452, 123453, 123454, 123455, 123456, 123457, null, true]`.
static ROW: [u8; 75] = [
    4, 0, 6, b'1', b'2', b'3', b'4', b'5', b'1', //
    4, 0, 6, b'1', b'2', b'3', b'4', b'5', b'2', //
    4, 0, 6, b'1', b'2', b'3', b'4', b'5', b'3', //
    4, 0, 6, b'1', b'2', b'3', b'4', b'5', b'4', //
    4, 0, 6, b'1', b'2', b'3', b'4', b'5', b'5', //
    4, 0, 6, b'1', b'2', b'3', b'4', b'5', b'6', //
    4, 0, 6, b'1', b'2', b'3', b'4', b'5', b'7', //
    2, 0, 0, //
    3, 0, 1, 1, //
    7, 0, 2, 0, 9,
];

static ROW_LINKS: [usize; 20] = [
    0, 0, 9, 1, 18, 2, 27, 3, 36, 4, 45, 5, 54, 6, 63, 7, 66, 8, 70, 0,
];

// Of `self`.
static SELF: [u8; 8] = [1, 0, 5, 0, 0, 0, 0, 4];

static SELF_LINKS: [usize; 2] = [0, 0];

fn tree_of<'a>(image: &'a [u8], links: &'a [usize]) -> Tree<'a> {
    Tree {
        image,
        links,
        count: links.len() / 2,
        places: &[],
    }
}

// A line with what is answered of each record.
fn ask<F: Fn(usize) -> usize>(page: &mut Page, what: &[u8], records: usize, answer: F)
    requires { F.IsAlwaysCallable answer }
{
    page.say(what);
    for r in 0..records {
        page.say(b" ");
        page.say_number(answer(r));
    }
    page.say(b"\n");
}

// A line with what is said.
fn hear<F: Fn(&mut Page)>(page: &mut Page, what: &[u8], say: F)
    requires { F.IsAlwaysCallable say }
{
    page.say(what);
    page.say(b": ");
    say(page);
    page.say(b"\n");
}

fn ask_tree(page: &mut Page, tree: &Tree) {
    let n = tree.count;
    ask(page, b"first", n, |r| tree.first(r));
    ask(page, b"tag", n, |r| usize::from(tree.tag(r)));
    ask(page, b"payload", n, |r| tree.payload(r).len());
    ask(page, b"first_child", n, |r| tree.first_child(r));
    ask(
        page,
        b"is_named_part",
        n,
        |r| usize::from(tree.is_named_part(r)),
    );
    ask(page, b"is_path", n, |r| usize::from(tree.is_path(r)));
    ask(page, b"begins_run", n, |r| usize::from(tree.begins_run(r)));
}

fn ask_records(page: &mut Page, tree: &Tree) {
    let n = tree.count;
    ask(page, b"record first", n, |r| tree.record(r).first());
    ask(
        page,
        b"record first_child",
        n,
        |r| tree.record(r).first_child().index,
    );
    ask(page, b"byte", n, |r| usize::from(tree.record(r).byte(0)));
    ask(page, b"flag", n, |r| usize::from(tree.record(r).flag(4)));
    ask(page, b"number", n, |r| tree.record(r).number(0));
    ask(page, b"rest", n, |r| tree.record(r).rest(4).len());
    ask(
        page,
        b"is_several",
        n,
        |r| usize::from(tree.record(r).is_several()),
    );
    ask(page, b"is_row", n, |r| usize::from(tree.record(r).is_row()));
}

fn hear_records(page: &mut Page, tree: &Tree) {
    for r in 0..tree.count {
        hear(page, b"say", |page| tree.record(r).say(page));
    }
}

fn hear_sum(page: &mut Page, tree: &Tree) {
    for r in [0, 1, 3, 5, 6] {
        hear(
            page,
            b"say_leaf",
            |page| tree.record(r).say_leaf(page, r == 3),
        );
    }
    hear(
        page,
        b"say_leaf",
        |page| tree.record(3).say_leaf(page, false),
    );
    for r in [2, 4, 8] {
        hear(page, b"say_step", |page| tree.record(r).say_step(page));
    }
    hear(page, b"say_part_name", |page| tree.say_part_name(page, 2));
    hear(page, b"say_path", |page| tree.say_path(page, 2));
    page.say(b"show_row");
    tree.record(7).show_row(page, 0);
}

fn hear_path(page: &mut Page, tree: &Tree) {
    for r in [4, 6] {
        hear(page, b"say_step", |page| tree.record(r).say_step(page));
        hear(page, b"say_part_name", |page| tree.say_part_name(page, r));
        hear(page, b"say_path", |page| tree.say_path(page, r));
    }
}

fn hear_row(page: &mut Page, tree: &Tree) {
    hear(
        page,
        b"say_leaf",
        |page| tree.record(7).say_leaf(page, false),
    );
    page.say(b"show_row");
    tree.record(9).show_row(page, 1);
}

fn hear_escapes(page: &mut Page) {
    hear(page, b"say_escape", |page| page.say_escape(b"\\q\""));
    hear(page, b"say_escape", |page| page.say_escape(b"\\"));
    hear(page, b"say_escape", |page| page.say_escape(b"\\x1\""));
    hear(page, b"say_escape", |page| page.say_escape(b"\\u12\""));
    hear(page, b"say_escape", |page| page.say_escape(b"\\ud800\""));
    hear(page, b"say_escape", |page| page.say_escape(b"\\udc00\""));
    hear(page, b"say_escape_of", |page| page.say_escape_of(0x202E));
    hear(page, b"say_escape_of", |page| page.say_escape_of(0xE0001));
    hear(page, b"say_code_point", |page| page.say_code_point(0x202E));
    hear(page, b"say_code_point", |page| page.say_code_point(0xE0001));
}

fn main(rt: HostRuntime) {
    let mut page = Page::new(&rt, false);
    let sum = tree_of(&SUM, &SUM_LINKS);
    let path = tree_of(&PATH, &PATH_LINKS);
    let index = tree_of(&INDEX, &INDEX_LINKS);
    let row = tree_of(&ROW, &ROW_LINKS);
    let own = tree_of(&SELF, &SELF_LINKS);
    for tree in [sum, path, index, row, own] {
        ask_tree(&mut page, &tree);
        ask_records(&mut page, &tree);
        hear_records(&mut page, &tree);
    }
    hear_sum(&mut page, &sum);
    hear_path(&mut page, &path);
    hear_row(&mut page, &row);
    hear(
        &mut page,
        b"say_leaf",
        |page| own.record(0).say_leaf(page, false),
    );
    hear_escapes(&mut page);
    page.flush();
}
