// The name and the attributes of a new file.
ghost use Rattle.std.specs.Prelude.{◌≡◌};
ghost use Rattle.tables.specs.Lists.{every};
ghost use Rattle.entry_set.specs.Name.{refused_units, member, unit_ok, is_dots, name_ok, attributes_ok};

// The units that a name must not have.
const REFUSED: [u16; 9] = [34, 42, 47, 58, 60, 62, 63, 92, 124];

// The attributes that a caller may set: all but Directory and the reserved bits.
const SETTABLE_ATTRIBUTES: u16 = 0x27;

// Whether u is one of the nine refused units.
fn is_refused(u: u16) -> bool
    ensures { result ≡ member u refused_units }
{
    REFUSED.contains(&u)
}

// Whether a name may have the unit u.
fn unit_ok(u: u16) -> bool
    ensures { result ≡ unit_ok u }
{
    u >= 32 && !is_refused(u)
}

// Whether a name may have each of its units.
fn units_ok(name: &[u16]) -> bool
    ensures { result ≡ every unit_ok name.now }
{
    name.iter().all(|u| unit_ok(*u))
}

// Whether the name is "." or "..".
fn is_dots(name: &[u16]) -> bool
    ensures { result ≡ is_dots name.now }
{
    name == [46].as_slice() || name == [46, 46].as_slice()
}

// Whether a new file may have the name (Rust: `file_name`).
pub fn name_ok(name: &[u16]) -> bool
    ensures { result ≡ name_ok name.now }
{
    !name.is_empty() && name.len() <= 255 && units_ok(name) && !is_dots(name)
}

// Whether a new file may have the attributes.
pub fn attributes_ok(attributes: u16) -> bool
    ensures { result ≡ attributes_ok attributes }
{
    attributes & !SETTABLE_ATTRIBUTES == 0
}
