//! Rows of numbers by name.

ghost use Rattle.std.specs.Prelude.{◌≡◌, ◌<◌, vec_len, vec_capacity};
ghost use Rattle.tests_layers.specs.Rows.{row_of, put_row, without_row};

/// A number by name, with the number of the edit that last changed it.
#[derive(Clone, Copy, Debug)]
pub struct Row {
    pub name: u64,
    pub stamp: u64,
    pub value: u64,
}

/// The stamp and value of a row, if it is there.
pub fn find_row(rows: &[Row], name: u64) -> Option<(u64, u64)>
    ensures { result ≡ row_of name rows.now }
{
    for row in rows {
        if name == row.name {
            return Some((row.stamp, row.value));
        }
    }
    None
}

/// Sets a row, or adds it, for which there is room.
pub fn put(rows: &mut Vec<Row>, name: u64, value: u64, number: u64)
    requires { vec_len rows.old < vec_capacity rows.old }
    ensures { rows.new.items ≡ put_row name value number rows.old.items }
{
    for i in 0..rows.len() {
        let row = rows[i];
        if name == row.name {
            let stamp = if value == row.value {
                row.stamp
            } else {
                number
            };
            rows[i] = Row { name, stamp, value };
            return;
        }
    }
    let row = Row {
        name,
        stamp: number,
        value,
    };
    match rows.push(row) {
        Ok(()) => {}
        Err(_) => unreachable!(),
    }
}

/// Removes a row.
pub fn remove(rows: &mut Vec<Row>, name: u64)
    ensures { rows.new.items ≡ without_row name rows.old.items }
{
    let mut i = 0;
    while i < rows.len() {
        if name == rows[i].name {
            let _ = rows.remove(i);
        } else {
            i += 1;
        }
    }
}
