//! A case: the texts that its calls are run over.

/// The texts of a case, each empty until its line comes.
#[derive(Clone, Copy)]
pub struct Case<'t> {
    pub name: &'t str,
    /// The text that declares the type, or the reader's type.
    pub ty: &'t str,
    /// The text that declares the writer's type.
    pub writer: &'t str,
    /// A value as JSON, of the writer's type where there is one.
    pub value: &'t str,
    /// Octets in hexadecimal.
    pub octets: &'t str,
}

impl<'t> Case<'t> {
    pub fn new() -> Case<'t> {
        Case::named("")
    }

    pub fn named(name: &'t str) -> Case<'t> {
        Case {
            name,
            ty: "",
            writer: "",
            value: "",
            octets: "",
        }
    }

    /// Takes a line that gives a text or says nothing. False where it is a call's.
    pub fn takes(&mut self, line: &'t str) -> bool {
        if line.is_empty() || line.starts_with("#") {
            return true;
        }
        let Some((word, text)) = line.split_once(' ') else {
            return false;
        };
        match word {
            "type" => self.ty = text,
            "writer" => self.writer = text,
            "value" => self.value = text,
            "octets" => self.octets = text,
            _ => return false,
        }
        true
    }
}
