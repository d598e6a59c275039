// Configuration rows: tables with their owners, sizes, fields and actions, as CONFIGURE sets them (document 01, "Frames").
#![tactic(auto)]

ghost use Rattle.std.specs.Prelude.{◌≡◌, ◌+◌, ◌≤◌, [], map, eqb, find, is_some, length, take};
ghost use Rattle.std.specs.Option.{option_copied};
ghost use Rattle.rules.specs.Bytes.{part};
ghost use Rattle.rules.specs.Call.{unconfigured};
ghost use Rattle.rules.specs.Row as rules;
ghost use Rattle.rows.specs.Meaning.{field_of, action_of, row_of, rows_of, row_found, action_read, row_read};

use numbers::integer;

// A match field: a kind and a width in bits.
#[repr(C)]
#[derive(Clone, Copy)]
pub struct Field {
    pub kind: u8,
    pub width: u8,
}

// An action: its id, how many parameters it has, and their widths in bits. A count over 4 reads as 4.
#[repr(C)]
#[derive(Clone, Copy)]
pub struct Action {
    pub id: [u8; 4],
    pub count: u8,
    pub widths: [u8; 4],
}

// A row: a table, the role that owns it, how many entries it may hold, its fields and its actions. Its 53 bytes are those that CONFIGURE
// sent: the ids and the size are big-endian. A count over 4 reads as 4.
#[repr(C)]
#[derive(Clone, Copy)]
pub struct Row {
    pub table: [u8; 4],
    pub owner: u8,
    pub size: [u8; 2],
    pub field_count: u8,
    pub fields: [Field; 4],
    pub action_count: u8,
    pub actions: [Action; 4],
}

// The rows in force, in the order of the configuration, from the first on; a count over 8 reads as 8.
#[repr(C)]
#[derive(Clone, Copy)]
pub struct Rows {
    pub rows: [Row; 8],
    pub count: u8,
}

// 14: width not 1 to 128.
pub fn width_allowed(width: u8) -> bool
    ensures { result ≡ rules.width_allowed width }
{
    1 <= width && width <= 128
}

impl Field {
    const NONE: Field = Field { kind: 0, width: 0 };

    // Of its two bytes.
    pub fn read(b: &[u8; 2]) -> Field
        ensures { field_of result ≡ rules.field_of b.now }
    {
        Field {
            kind: b[0],
            width: b[1],
        }
    }

    // Of the two bytes at a place.
    pub fn at(b: &[u8], at: usize) -> Field
        requires { at + 2 ≤ length b.now }
        ensures { field_of result ≡ rules.field_of (part at 2 b.now) }
    {
        Field::read(b[at..at + 2].first_chunk().unwrap())
    }

    // 14: kind not 1 to 5, width not 1 to 128. An arm for each kind, as document 01 writes it.
    pub fn allowed(self) -> bool
        ensures { result ≡ rules.field_allowed (field_of self) }
    {
        let wide = width_allowed(self.width);
        match self.kind {
            // Omitted: a slot may be, no field is.
            0 => false,
            // Exact.
            1 => wide,
            // Lpm.
            2 => wide,
            // Ternary.
            3 => wide,
            // Range.
            4 => wide,
            // Optional.
            5 => wide,
            // Unknown.
            6..=255 => false,
        }
    }
}

impl Action {
    const NONE: Action = Action {
        id: [0; 4],
        count: 0,
        widths: [0; 4],
    };

    // Of its nine bytes.
    pub fn read(b: &[u8; 9]) -> Action
        ensures { action_of result ≡ action_read b.now }
    {
        Action {
            id: [b[0], b[1], b[2], b[3]],
            count: b[4],
            widths: [b[5], b[6], b[7], b[8]],
        }
    }

    pub fn id(&self) -> u64
        ensures { result ≡ (action_of self.now).id }
    {
        integer(&self.id, 0, 4)
    }

    // The widths of its parameters.
    pub fn widths(&self) -> &[u8]
        ensures widths { result.now ≡ (action_of self.now).widths }
        ensures few { length result.now ≤ 4 }
    {
        &self.widths[..usize::from(self.count).min(4)]
    }
}

impl Row {
    const NONE: Row = Row {
        table: [0; 4],
        owner: 0,
        size: [0; 2],
        field_count: 0,
        fields: [Field::NONE; 4],
        action_count: 0,
        actions: [Action::NONE; 4],
    };

    // Of its 53 bytes. Place by place: what `array::from_fn` says of an index does not say in which state its closure was called.
    pub fn read(b: &[u8; rules::ROW]) -> Row
        ensures { row_of result ≡ row_read b.now }
    {
        let (fields, _) = b[8..16].as_chunks::<2>();
        let (actions, _) = b[17..].as_chunks::<9>();
        Row {
            table: [b[0], b[1], b[2], b[3]],
            owner: b[4],
            size: [b[5], b[6]],
            field_count: b[7],
            fields: [
                Field::read(&fields[0]),
                Field::read(&fields[1]),
                Field::read(&fields[2]),
                Field::read(&fields[3]),
            ],
            action_count: b[16],
            actions: [
                Action::read(&actions[0]),
                Action::read(&actions[1]),
                Action::read(&actions[2]),
                Action::read(&actions[3]),
            ],
        }
    }

    pub fn table(&self) -> u64
        ensures { result ≡ (row_of self.now).table }
    {
        integer(&self.table, 0, 4)
    }

    // How many entries it may hold.
    pub fn size(&self) -> u64
        ensures { result ≡ (row_of self.now).size }
    {
        integer(&self.size, 0, 2)
    }

    pub fn fields(&self) -> &[Field]
        ensures fields { map field_of result.now ≡ (row_of self.now).fields }
        ensures few { length result.now ≤ 4 }
    {
        &self.fields[..usize::from(self.field_count).min(4)]
    }

    pub fn actions(&self) -> &[Action]
        ensures actions { map action_of result.now ≡ (row_of self.now).actions }
        ensures few { length result.now ≤ 4 }
    {
        &self.actions[..usize::from(self.action_count).min(4)]
    }

    // The primary of role 0 may write every table, that of role r only tables owned by r.
    pub fn may_write(&self, role: u8) -> bool
        ensures { result ≡ rules.may_write role (row_of self.now) }
    {
        role == 0 || self.owner == role
    }
}

impl Rows {
    // No configuration.
    pub fn fresh() -> Rows
        ensures { rows_of result ≡ [] }
    {
        Rows {
            rows: [Row::NONE; 8],
            count: 0,
        }
    }

    // Whether there is no configuration.
    pub fn is_empty(&self) -> bool
        ensures { result ≡ unconfigured (rows_of self.now) }
    {
        self.count == 0
    }

    // Of 53 bytes each.
    pub fn read(rows: &[[u8; rules::ROW]]) -> Rows
        requires { length rows.now ≤ 8 }
        ensures { rows_of result ≡ map row_read rows.now }
    {
        let mut read = Rows::fresh();
        for (i, b) in rows.iter().enumerate() {
            read.rows[i] = Row::read(b);
        }
        read.count = rows.len() as u8;
        read
    }

    // Each of them.
    pub fn in_force(&self) -> &[Row]
        ensures rows { result.now ≡ take self.now.count self.now.rows }
        ensures few { length result.now ≤ 8 }
    {
        &self.rows[..usize::from(self.count).min(8)]
    }

    // The row of a table: the first in force that is the table's.
    pub fn find(&self, table: u64) -> Option<&Row>
        ensures first { option_copied result ≡ find (λ row. eqb (row_of row).table table) (take self.now.count self.now.rows) }
        ensures known { is_some result ≡ rules.known table (rows_of self.now) }
        ensures row { row_found result ≡ rules.row_for table (rows_of self.now) }
    {
        self.in_force().iter().find(|row| row.table() == table)
    }
}
