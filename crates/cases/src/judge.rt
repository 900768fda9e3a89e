// The second reader: what the paper says of a book's bytes, field by field.
ghost use Rattle.std.specs.Prelude.{◌<◌, ◌≤◌, IfSome, length};

use drawn::{Reason, Refused, at, part};

// Where a body begins and ends.
#[derive(Clone, Copy, Default)]
struct Body {
    start: usize,
    end: usize,
}

impl Body {
    fn of(self, bytes: &[u8]) -> &[u8] {
        part(bytes, self.start, self.end)
    }
}

// Up to N bodies in their order.
#[derive(Clone, Copy)]
struct Bodies<const N: usize> {
    bodies: [Body; N],
    count: usize,
}

impl<const N: usize> Bodies<N> {
    fn none() -> Bodies<N> {
        Bodies {
            bodies: [Body { start: 0, end: 0 }; N],
            count: 0,
        }
    }

    fn push(&mut self, body: Body) {
        if self.count < N {
            self.bodies[self.count] = body;
            self.count += 1;
        }
    }

    // Body i, of the bytes; nothing past the last.
    fn get<'a>(&self, bytes: &'a [u8], i: usize) -> &'a [u8] {
        at(&self.bodies, i).of(bytes)
    }
}

// What a sound book's bytes hold.
#[derive(Clone, Copy)]
pub struct Sound<'a> {
    bytes: &'a [u8],
    pictures: Bodies<16>,
    rules: Bodies<256>,
}

impl<'a> Sound<'a> {
    pub fn nothing(bytes: &'a [u8]) -> Sound<'a> {
        Sound {
            bytes,
            pictures: Bodies::none(),
            rules: Bodies::none(),
        }
    }

    pub fn pictures(&self) -> usize {
        self.pictures.count
    }

    pub fn rules(&self) -> usize {
        self.rules.count
    }

    // The bytes of picture p.
    pub fn picture(&self, p: usize) -> &'a [u8] {
        self.pictures.get(self.bytes, p)
    }

    // The pairs of rule k.
    pub fn rule(&self, k: usize) -> &'a [u8] {
        self.rules.get(self.bytes, k)
    }
}

// A refusal, and how many symbols of a refused rule are at fault.
#[derive(Clone, Copy)]
pub struct Fault {
    pub refused: Refused,
    pub amiss: usize,
}

impl From<Refused> for Fault {
    fn from(refused: Refused) -> Fault {
        Fault { refused, amiss: 0 }
    }
}

// A field's tag, and where its body is.
#[derive(Clone, Copy)]
struct Field {
    tag: u8,
    body: Body,
}

// The field that begins at a place; nothing where it is cut short.
fn field_at(bytes: &[u8], from: usize) -> Option<Field>
    ensures { IfSome result (λ f. from < f.body.end) }
{
    let [tag, high, low, rest @ ..] = part(bytes, from, bytes.len()) else {
        return None;
    };
    let size = usize::from(u16::from_be_bytes([*high, *low]));
    if rest.len() < size {
        return None;
    }
    let end = bytes.len() - (rest.len() - size);
    let body = Body {
        start: end - size,
        end,
    };
    Some(Field { tag: *tag, body })
}

pub fn judge(bytes: &[u8]) -> Result<Sound<'_>, Fault> {
    let mut sound = Sound::nothing(bytes);
    let mut from = 0;
    while from < bytes.len() {
        let Some(field) = field_at(bytes, from) else {
            return Err(Refused::at(Reason::Cut, from).into());
        };
        let body = field.body;
        match field.tag {
            0x50 => {
                judge_picture(body.of(bytes), sound.pictures()).map_err(|why| Refused::at(
                    why, from,
                ))?;
                sound.pictures.push(body);
            }
            0x52 => {
                judge_rule(body.of(bytes), &sound, from)?;
                sound.rules.push(body);
            }
            _ => return Err(Refused::at(Reason::OtherTag, from).into()),
        }
        from = body.end;
    }
    if sound.rules() == 0 {
        return Err(Refused::at(Reason::NoRule, bytes.len()).into());
    }
    Ok(sound)
}

// Not a 17th, nor empty, and ascending.
fn judge_picture(body: &[u8], pictures: usize) -> Result<(), Reason> {
    if pictures == 16 {
        Err(Reason::PictureMany)
    } else if body.is_empty() || !body.windows(2).all(|two| two[0] < two[1]) {
        Err(Reason::PictureBody)
    } else {
        Ok(())
    }
}

// Not a 257th, of 1 to 64 pairs, each of which is a symbol.
fn judge_rule(body: &[u8], sound: &Sound<'_>, from: usize) -> Result<(), Fault> {
    if sound.rules() == 256 {
        Err(Refused::at(Reason::RuleMany, from).into())
    } else if 128 < body.len() {
        Err(Refused::at(Reason::RuleLong, from).into())
    } else if body.is_empty() || body.len() % 2 == 1 {
        Err(Refused::at(Reason::RuleBody, from).into())
    } else {
        judge_symbols(body, sound.pictures(), from)
    }
}

// The first symbol at fault counts.
fn judge_symbols(body: &[u8], pictures: usize, from: usize) -> Result<(), Fault> {
    let mut found = Ok(());
    let mut amiss = 0usize;
    for (j, symbol) in body.chunks_exact(2).enumerate() {
        if let Err(why) = judge_symbol(symbol, pictures) {
            amiss = amiss.wrapping_add(1);
            if amiss == 1 {
                let value = from.wrapping_add(3).wrapping_add(j).wrapping_add(j);
                found = Err(Refused { why, value });
            }
        }
    }
    found.map_err(|refused| Fault { refused, amiss })
}

// A byte, one of the first pictures, or neither.
fn judge_symbol(symbol: &[u8], pictures: usize) -> Result<(), Reason> {
    match symbol {
        [0, _] => Ok(()),
        [1, p] if usize::from(*p) < pictures => Ok(()),
        [1, _] => Err(Reason::UndefinedPicture),
        _ => Err(Reason::UnknownKind),
    }
}
