//! The licence texts that the identifier has built in.
ghost use Rattle.std.specs.Prelude.{◌≡◌, IfOk, map};
ghost use Rattle.spdx_terms.specs.catalog.BuiltIn.{license_text};

use crate::catalog::store::{StoreText, StoreTexts};
use deny_text::Text;
use std::alloc::{AllocError, Global};

/// A licence's name, the first line that is before its body, or nothing, and the body.
pub(crate) struct BuiltIn {
    pub(crate) name: &'static str,
    pub(crate) heading: &'static str,
    pub(crate) body: &'static str,
}

impl BuiltIn {
    /// The text as it is stored.
    pub(crate) fn text(&self, alloc: Global) -> Result<StoreText, AllocError>
        ensures { IfOk result (λ text.
            text ≡ license_text self.now.name.now self.now.heading.now self.now.body.now) }
    {
        let name = Text::copy(alloc, self.name)?;
        let mut body = String::from_str(alloc, self.heading)?;
        body.push_str(self.body)?;
        Ok(StoreText {
            name,
            body: Text::from(body),
        })
    }
}

const MIT_BODY: &str = "\
    Permission is hereby granted, free of charge, to any person obtaining a copy of this software and \
    associated documentation files (the \"Software\"), to deal in the Software without restriction, \
    including without limitation the rights to use, copy, modify, merge, publish, distribute, \
    sublicense, and/or sell copies of the Software, and to permit persons to whom the Software is \
    furnished to do so, subject to the following conditions:\n\
    The above copyright notice and this permission notice shall be included in all copies or \
    substantial portions of the Software.\n\
    THE SOFTWARE IS PROVIDED \"AS IS\", WITHOUT WARRANTY OF ANY KIND, EXPRESS OR IMPLIED, INCLUDING \
    BUT NOT LIMITED TO THE WARRANTIES OF MERCHANTABILITY, FITNESS FOR A PARTICULAR PURPOSE AND \
    NONINFRINGEMENT. IN NO EVENT SHALL THE AUTHORS OR COPYRIGHT HOLDERS BE LIABLE FOR ANY CLAIM, \
    DAMAGES OR OTHER LIABILITY, WHETHER IN AN ACTION OF CONTRACT, TORT OR OTHERWISE, ARISING FROM, \
    OUT OF OR IN CONNECTION WITH THE SOFTWARE OR THE USE OR OTHER DEALINGS IN THE SOFTWARE.\n";

const ISC_BODY: &str = "\
    Permission to use, copy, modify, and/or distribute this software for any purpose with or without \
    fee is hereby granted, provided that the above copyright notice and this permission notice appear \
    in all copies.\n\
    THE SOFTWARE IS PROVIDED \"AS IS\" AND THE AUTHOR DISCLAIMS ALL WARRANTIES WITH REGARD TO THIS \
    SOFTWARE INCLUDING ALL IMPLIED WARRANTIES OF MERCHANTABILITY AND FITNESS. IN NO EVENT SHALL THE \
    AUTHOR BE LIABLE FOR ANY SPECIAL, DIRECT, INDIRECT, OR CONSEQUENTIAL DAMAGES OR ANY DAMAGES \
    WHATSOEVER RESULTING FROM LOSS OF USE, DATA OR PROFITS, WHETHER IN AN ACTION OF CONTRACT, \
    NEGLIGENCE OR OTHER TORTIOUS ACTION, ARISING OUT OF OR IN CONNECTION WITH THE USE OR PERFORMANCE \
    OF THIS SOFTWARE.\n";

pub(crate) static BUILT_IN: [BuiltIn; 6] = [
    BuiltIn {
        name: "MIT",
        heading: "",
        body: MIT_BODY,
    },
    BuiltIn {
        name: "MIT",
        heading: "MIT License\n",
        body: MIT_BODY,
    },
    BuiltIn {
        name: "MIT",
        heading: "The MIT License\n",
        body: MIT_BODY,
    },
    BuiltIn {
        name: "MIT",
        heading: "The MIT License (MIT)\n",
        body: MIT_BODY,
    },
    BuiltIn {
        name: "ISC",
        heading: "",
        body: ISC_BODY,
    },
    BuiltIn {
        name: "ISC",
        heading: "ISC License\n",
        body: ISC_BODY,
    },
];

/// The texts as they are stored.
pub(crate) fn built_in_texts(alloc: Global, listed: &[BuiltIn]) -> Result<StoreTexts, AllocError>
    ensures { IfOk result (λ texts.
        texts ≡ map (λ built. license_text built.name.now built.heading.now built.body.now) listed.now) }
{
    let mut texts = StoreTexts::new(alloc);
    'listed: for built in listed {
        let text = built.text(alloc)?;
        texts.push(text)?;
    }
    Ok(texts)
}
