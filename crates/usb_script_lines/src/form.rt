//! How the code of a form reads the words behind a first word. The tables of forms have docs/SCRIPT.md's rows: a row names
//! the item, and each of its fields by the word that stands for it there, or it names the function that reads its words.

// The letter that a name begins with.
macro_rules! letter {
    (k) => { b'k' };
    (d) => { b'd' };
    (i) => { b'i' };
    (e) => { b'e' };
    (r) => { b'r' };
    (w) => { b'w' };
    (m) => { b'm' };
    (f) => { b'f' };
}

// What a word spells as a field: first those by whose words the list of docs/SCRIPT.md has them.
macro_rules! field {
    ($alloc:ident, $word:expr, N) => { usb_script_words::Length::parse($word)? };
    ($alloc:ident, $word:expr, B) => { usb_script_words::byte($word)? };
    ($alloc:ident, $word:expr, R) => { usb_script_words::ReadLength::parse($word)? };
    ($alloc:ident, $word:expr, HH) => { usb_script_words::hex_byte($word)? };
    ($alloc:ident, $word:expr, HHHH) => { usb_script_words::hex_word($word)? };
    ($alloc:ident, $word:expr, TIME) => { usb_script_words::Timeout::parse($word)? };
    ($alloc:ident, $word:expr, ERRNO) => { usb_script_words::Errno::parse($word)? };
    ($alloc:ident, $word:expr, KIND) => { usb_script_words::EndpointKind::parse($word)? };
    ($alloc:ident, $word:expr, X) => { usb_script_words::ControlTarget::parse($word)? };
    ($alloc:ident, $word:expr, BYTES) => { usb_script_words::Data::parse($alloc, $word)? };
    ($alloc:ident, $word:expr, PATH) => { usb_script_words::Path::parse($alloc, $word)? };
    ($alloc:ident, $word:expr, NAME) => { usb_script_words::FileName::parse($alloc, $word)? };
    ($alloc:ident, $word:expr, TEXT) => { usb_script_words::Target::parse($alloc, $word)? };
    ($alloc:ident, $word:expr, VALUE) => { usb_script_words::value($alloc, $word)? };
    // An N or BYTES of a control transfer, and the index of a string.
    ($alloc:ident, $word:expr, CONTROL_N) => { usb_script_words::data_length($word)? };
    ($alloc:ident, $word:expr, CONTROL_BYTES) => { usb_script_words::ControlData::parse($alloc, $word)? };
    ($alloc:ident, $word:expr, INDEX) => { usb_script_words::StringIndex::parse($word)? };
    ($alloc:ident, $word:expr, $letter:ident) => { usb_script_words::Name::parse(letter!($letter), $word)? };
}

// So many words, and no more.
macro_rules! exactly {
    ($words:ident;) => { usb_script_words::no_word($words)? };
    ($words:ident; $a:ident) => { usb_script_words::one_word($words)? };
    ($words:ident; $a:ident $b:ident) => { usb_script_words::two_words($words)? };
    ($words:ident; $a:ident $b:ident $c:ident) => { usb_script_words::three_words($words)? };
    ($words:ident; $a:ident $b:ident $c:ident $d:ident) => { usb_script_words::four_words($words)? };
    ($words:ident; $($field:ident)+) => { usb_script_words::six_words($words)? };
}

// The item of a form, by the words behind the first one.
macro_rules! form {
    // The function that reads a row's words.
    ($alloc:ident, $words:ident, $row:ident ($($argument:ident),+)) => { $row($($argument),+) };
    ($alloc:ident, $words:ident, $form:ident ($framing:ident) { $($fields:tt)* }) => {
        form!($alloc, $words, $form [framing: usb_script_words::Framing::$framing,] { $($fields)* })
    };
    ($alloc:ident, $words:ident, $form:ident { $($fields:tt)* }) => {
        form!($alloc, $words, $form [] { $($fields)* })
    };
    // Steps, and no field.
    ($alloc:ident, $words:ident, $form:ident [] { STEPS }) => {{
        let steps = usb_script_words::steps($alloc, $words)?;
        Ok(Item::$form(steps))
    }};
    // A field, and a selector.
    ($alloc:ident, $words:ident, $form:ident [] { $field:ident: $kind:ident, selector: SEL }) => {{
        let (word, more) = usb_script_words::one_and_more($words)?;
        let $field = field!($alloc, word, $kind);
        let selector = usb_script_words::Selector::parse($alloc, more)?;
        Ok(Item::$form { $field, selector })
    }};
    // What a control transfer asks for, in five words, with fields before and behind it.
    (
        $alloc:ident, $words:ident,
        $form:ident [] { $($before:ident: $kind:ident),+; setup: CTL; $($field:ident: $behind:ident),+ $(; $steps:ident)? }
    ) => {{
        let more = $words;
        $(
            let (word, more) = usb_script_words::one_and_more(more)?;
            let $before = field!($alloc, word, $kind);
        )+
        let (setup, more) = usb_script_words::setup_and_more(more)?;
        form!($alloc, more, $form [$($before,)+ setup,] { $($field: $behind),+ $(; $steps)? })
    }};
    // A name, and what stands behind it in many lines.
    ($alloc:ident, $words:ident, $form:ident [$($given:tt)*] { $name:ident: $letter:ident; steps }) => {{
        let ($name, steps) = crate::fields::name_and_steps($alloc, letter!($letter), $words)?;
        Ok(Item::$form { $($given)* $name, steps })
    }};
    ($alloc:ident, $words:ident, $form:ident [$($given:tt)*] { $name:ident: $letter:ident, length: R; steps }) => {{
        let (word, more) = usb_script_words::one_and_more($words)?;
        let $name = field!($alloc, word, $letter);
        let (length, steps) = crate::fields::read_length_and_steps($alloc, more)?;
        Ok(Item::$form { $($given)* $name, length, steps })
    }};
    ($alloc:ident, $words:ident, $form:ident [$($given:tt)*] { $a:ident: $first:ident, timeout: TIME; steps }) => {{
        let (word, more) = usb_script_words::one_and_more($words)?;
        let $a = field!($alloc, word, $first);
        let (timeout, steps) = crate::fields::time_and_steps($alloc, more)?;
        Ok(Item::$form { $($given)* $a, timeout, steps })
    }};
    ($alloc:ident, $words:ident, $form:ident [] { $a:ident: $first:ident, $b:ident: $second:ident, timeout: TIME; steps }) => {{
        let (word, more) = usb_script_words::one_and_more($words)?;
        let $a = field!($alloc, word, $first);
        let (word, more) = usb_script_words::one_and_more(more)?;
        let $b = field!($alloc, word, $second);
        let (timeout, steps) = crate::fields::time_and_steps($alloc, more)?;
        Ok(Item::$form { $a, $b, timeout, steps })
    }};
    // Fields, and the steps of the call.
    (
        $alloc:ident, $words:ident,
        $form:ident [$($given:tt)*] { $($field:ident: $kind:ident),+; steps }
    ) => {{
        let more = $words;
        $(
            let (word, more) = usb_script_words::one_and_more(more)?;
            let $field = field!($alloc, word, $kind);
        )+
        let steps = usb_script_words::own_steps($alloc, more)?;
        Ok(Item::$form { $($given)* $($field,)+ steps })
    }};
    // A name, and what stands behind it in many lines; fields, and no more.
    ($alloc:ident, $words:ident, $form:ident [$($given:tt)*] { $name:ident: $letter:ident }) => {{
        let $name = crate::fields::one_name(letter!($letter), $words)?;
        Ok(Item::$form { $($given)* $name })
    }};
    ($alloc:ident, $words:ident, $form:ident [$($given:tt)*] { $name:ident: $letter:ident, $field:ident: B }) => {{
        let ($name, $field) = crate::fields::name_and_byte(letter!($letter), $words)?;
        Ok(Item::$form { $($given)* $name, $field })
    }};
    ($alloc:ident, $words:ident, $form:ident [$($given:tt)*] { $name:ident: $letter:ident, $field:ident: N }) => {{
        let ($name, $field) = crate::fields::name_and_length(letter!($letter), $words)?;
        Ok(Item::$form { $($given)* $name, $field })
    }};
    ($alloc:ident, $words:ident, $form:ident [$($given:tt)*] { $name:ident: $letter:ident, $field:ident: R }) => {{
        let ($name, $field) = crate::fields::name_and_read_length(letter!($letter), $words)?;
        Ok(Item::$form { $($given)* $name, $field })
    }};
    ($alloc:ident, $words:ident, $form:ident [$($given:tt)*] { $name:ident: $letter:ident, $field:ident: BYTES }) => {{
        let ($name, $field) = crate::fields::name_and_data($alloc, letter!($letter), $words)?;
        Ok(Item::$form { $($given)* $name, $field })
    }};
    ($alloc:ident, $words:ident, $form:ident [] { $name:ident: $letter:ident, $field:ident: B, interface: i }) => {{
        let ($name, $field, interface) = crate::fields::name_byte_name(letter!($letter), letter!(i), $words)?;
        Ok(Item::$form { $name, $field, interface })
    }};
    ($alloc:ident, $words:ident, $form:ident [] { $name:ident: $letter:ident, endpoint: e, $field:ident: N }) => {{
        let ($name, endpoint, $field) = crate::fields::two_names_and_length(letter!($letter), letter!(e), $words)?;
        Ok(Item::$form { $name, endpoint, $field })
    }};
    ($alloc:ident, $words:ident, $form:ident [$($given:tt)*] { $($field:ident: $kind:ident),* }) => {{
        let ($($field),*) = exactly!($words; $($field)*);
        $(let $field = field!($alloc, $field, $kind);)*
        Ok(Item::$form { $($given)* $($field),* })
    }};
}

// The item of the row whose first word this is.
macro_rules! rows {
    (
        $alloc:ident, $name:ident, $words:ident;
        $($word:literal => $form:ident $(($($argument:ident),+))? $({ $($fields:tt)* })?)*
    ) => {
        $(
            if usb_script_words::reads($name, $word) {
                return form!($alloc, $words, $form $(($($argument),+))? $({ $($fields)* })?);
            }
        )*
        Err(LineError::Malformed)
    };
}

pub(crate) use exactly;
pub(crate) use field;
pub(crate) use form;
pub(crate) use letter;
pub(crate) use rows;
