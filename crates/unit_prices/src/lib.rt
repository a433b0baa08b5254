// What a dwelling costs and contributes, over any tariff: by its kind, both days and the tranches alone.
#![tactic(auto)]

pub mod price;
