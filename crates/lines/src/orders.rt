// What a line asks for: a command with its numbers.
use fields::line::Fields;
use memory::header::Header;

// A command. The digits of a pack are one field, the bytes of a load's column and the words of an unpack one each:
// what they spell is read later.
#[derive(Clone, Copy)]
pub enum Order<'a> {
    Load(Load<'a>),
    Change(Change),
    Ask(Question),
    Set(Setting),
    Peek { at: u32, count: u32 },
    PeekFence { at: u32, count: u32 },
    Pack { digits: &'a [u8] },
    Unpack { length: u32, words: Fields<'a> },
    Help,
}

// The numbers of a load, and its column.
#[derive(Clone, Copy)]
pub struct Load<'a> {
    pub rows: u32,
    pub values: u32,
    pub threshold: u32,
    pub spacing: u32,
    pub column: Fields<'a>,
}

// A change of the index.
#[derive(Clone, Copy)]
pub enum Change {
    Insert { value: u32 },
    Update { row: u32, value: u32 },
    Delete { row: u32 },
    Merge { value: u32 },
}

// A question to the index.
#[derive(Clone, Copy)]
pub enum Question {
    Query { value: u32 },
    Value { row: u32 },
    Dump,
    Audit,
}

// What is to be set: how much is lent, the header in use, or what stands in the memory.
#[derive(Clone, Copy)]
pub enum Setting {
    Room { room: u32 },
    Lend { words: u32, fences: u32 },
    Header(Header),
    Poke { at: u32, word: u32 },
    PokeFence { at: u32, place: u32, first: u32 },
}

// Whether a line asks for nothing: an empty line, and one that begins with `#`.
pub fn is_silent(line: &[u8]) -> bool {
    line.is_empty() || line.starts_with(b"#")
}

// The command of a line; none where it is no command.
pub fn order_in(line: &[u8]) -> Option<Order<'_>> {
    let mut fields = Fields::new(line);
    let name = fields.next()?;
    let order = order_of(name, &mut fields)?;
    match fields.next() {
        None => Some(order),
        Some(_) => None,
    }
}

// The command of a name, with the fields that it takes.
fn order_of<'a>(name: &[u8], fields: &mut Fields<'a>) -> Option<Order<'a>> {
    Some(match name {
        b"load" => Order::Load(load_of(fields)?),
        b"query" => Order::Ask(Question::Query {
            value: fields.number()?,
        }),
        b"value" => Order::Ask(Question::Value {
            row: fields.number()?,
        }),
        b"dump" => Order::Ask(Question::Dump),
        b"audit" => Order::Ask(Question::Audit),
        b"peek" => Order::Peek {
            at: fields.number()?,
            count: fields.number()?,
        },
        b"peekfence" => Order::PeekFence {
            at: fields.number()?,
            count: fields.number()?,
        },
        b"pack" => Order::Pack {
            digits: fields.next().unwrap_or(b""),
        },
        b"unpack" => Order::Unpack {
            length: fields.number()?,
            words: fields.rest(),
        },
        b"help" => Order::Help,
        _ => return setting_order(name, fields),
    })
}

// `R d T G b b ..`.
fn load_of<'a>(fields: &mut Fields<'a>) -> Option<Load<'a>> {
    Some(Load {
        rows: fields.number()?,
        values: fields.number()?,
        threshold: fields.number()?,
        spacing: fields.number()?,
        column: fields.rest(),
    })
}

// A command that sets something; else a change.
fn setting_order<'a>(name: &[u8], fields: &mut Fields<'_>) -> Option<Order<'a>> {
    Some(Order::Set(match name {
        b"room" => Setting::Room {
            room: fields.number()?,
        },
        b"lend" => Setting::Lend {
            words: fields.number()?,
            fences: fields.number()?,
        },
        b"header" => Setting::Header(header_of(fields)?),
        b"poke" => Setting::Poke {
            at: fields.number()?,
            word: fields.word()?,
        },
        b"pokefence" => Setting::PokeFence {
            at: fields.number()?,
            place: fields.number()?,
            first: fields.number()?,
        },
        _ => return change_order(name, fields),
    }))
}

fn change_order<'a>(name: &[u8], fields: &mut Fields<'_>) -> Option<Order<'a>> {
    Some(Order::Change(match name {
        b"insert" => Change::Insert {
            value: fields.number()?,
        },
        b"update" => Change::Update {
            row: fields.number()?,
            value: fields.number()?,
        },
        b"delete" => Change::Delete {
            row: fields.number()?,
        },
        b"merge" => Change::Merge {
            value: fields.number()?,
        },
        _ => return None,
    }))
}

// `R n d T G`.
fn header_of(fields: &mut Fields<'_>) -> Option<Header> {
    Some(Header {
        rows: fields.number()?,
        issued: fields.number()?,
        values: fields.number()?,
        threshold: fields.number()?,
        spacing: fields.number()?,
    })
}
