// The rows of patterns. What is written of one: code, place, n, c, duration, and whether all places beyond the counts
// are 0 (of a refused pattern, whose counts are 0, these are all its places). Then of each variable the set number,
// with a + for a group variable, and of each condition variable.attribute, operator, form, second variable.second
// attribute, constant.
use patterns::{Checked, Condition, MOST_CONDITIONS, MOST_VARIABLES, Pattern};
use std::io;

pub(crate) fn pattern_row(out: &impl Print, row: &[u8]) -> io::Result<()> {
    let mut pattern = [0; tables::ROOM];
    let at = tables::next_word(row, 0);
    let n = tables::hex_bytes(&row[at..], &mut pattern);
    put_checked(out, patterns::check_pattern(&pattern[..n]))
}

fn put_checked(out: &impl Print, checked: Checked) -> io::Result<()> {
    let p = checked.pattern;
    print!(out;
        "{} {} {} {} {}",
        checked.code, checked.place, p.n, p.c, p.duration
    )?;
    let rest = if no_more_variables(p) && no_more_conditions(p) {
        "0"
    } else {
        "not 0"
    };
    print!(out; " rest {rest}")?;
    put_variables(out, p)?;
    put_conditions(out, p)
}

// Whether all places of variables from n on are 0.
fn no_more_variables(p: Pattern) -> bool {
    (p.n..MOST_VARIABLES).all(|v| p.sets[v] == 0 && !p.groups[v])
}

// Whether all places of conditions from c on are 0.
fn no_more_conditions(p: Pattern) -> bool {
    (p.c..MOST_CONDITIONS).all(|i| is_blank(p.condition(i)))
}

fn is_blank(k: Condition) -> bool {
    matches!(
        k,
        Condition {
            variable: 0,
            attribute: 0,
            operator: 0,
            form: 0,
            variable2: 0,
            attribute2: 0,
            constant: 0,
        }
    )
}

fn put_variables(out: &impl Print, p: Pattern) -> io::Result<()> {
    for v in 0..p.n.min(MOST_VARIABLES) {
        let before = if v == 0 { ":" } else { "" };
        let after = if p.groups[v] { "+" } else { "" };
        print!(out; "{before} {}{after}", p.sets[v])?;
    }
    Ok(())
}

fn put_conditions(out: &impl Print, p: Pattern) -> io::Result<()> {
    for i in 0..p.c.min(MOST_CONDITIONS) {
        put_condition(out, p.condition(i))?;
    }
    Ok(())
}

fn put_condition(out: &impl Print, k: Condition) -> io::Result<()> {
    print!(out;
        "; {}.{} {} {} ",
        k.variable, k.attribute, k.operator, k.form
    )?;
    print!(out; "{}.{} {}", k.variable2, k.attribute2, k.constant)
}
