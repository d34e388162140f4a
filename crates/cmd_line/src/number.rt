ghost use Rattle.std.specs.Prelude.{◌≡◌, ◌≤◌, IfSome};
ghost use Rattle.cmd_line.specs.CommandLine.{number_in};

/// A number from `least` to `most` in decimal digits, perhaps behind a plus.
pub fn read_number(text: &str, least: u32, most: u32) -> Option<u32>
    ensures said { result ≡ number_in least most text.now }
    ensures bounds { IfSome result (λ n. (least ≤ n) × (n ≤ most)) }
{
    match text.parse::<u32>() {
        Ok(number) => {
            if number < least || most < number {
                return None;
            }
            Some(number)
        }
        Err(_) => None,
    }
}
