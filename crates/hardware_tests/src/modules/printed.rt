//! Modules as texts.

use std::alloc::Global;
use std::test::Fail;
use vlog_text::printer::print_v;
use vlog_text::reader::read_v;

/// The text of the module that a short text says.
fn printed(alloc: Global, text: &str) -> Result<String, Fail> {
    if text.len() > 1000 {
        return Err(Fail::from("long"));
    }
    match read_v(alloc, text) {
        Ok(design) => Ok(print_v(alloc, &design)?),
        Err(_) => Err(Fail::from("refused")),
    }
}

/// A counter as a user might write it.
const WRITTEN: &str = "module T ( input wire clk, input wire rst, output wire [7:0] b_data,
  output wire b_vld, input wire b_rdy ); // counts the words that are taken
reg [7:0] n; wire go; wire [7:0] up; wire [7:0] nx;
assign go = b_vld & b_rdy; assign up = n + 8'd1; assign nx = go ? up : n;
assign b_data = n; assign b_vld = ~ rst;
always @(posedge clk) begin if (rst) begin n <= 8'd250; end
  else begin n <= nx; end end
endmodule
";

#[test]
fn a_counter_is_printed(rt: HostRuntime) -> Result<(), Fail> {
    let text = printed(rt.alloc(), WRITTEN)?;
    let wanted =
        "module T(input wire clk, input wire rst, output wire [7:0] b_data, output wire b_vld, input wire b_rdy);
reg [7:0] n;
wire go;
wire [7:0] up;
wire [7:0] nx;
assign go = b_vld & b_rdy;
assign up = n + 8'd1;
assign nx = go ? up : n;
assign b_data = n;
assign b_vld = ~rst;
always @(posedge clk) begin if (rst) begin
n <= 8'd250;
end else begin
n <= nx;
end end
endmodule
";
    assert_eq!(rt; text.as_str(), wanted);
    Ok(())
}

/// Each form of expression but those of the counter.
#[test]
fn forms_are_printed(rt: HostRuntime) -> Result<(), Fail> {
    let text =
        "module M(input wire clk,input wire rst);wire[3:0]a;wire b;wire[1:0]c;wire[3:0]d;wire[6:0]e;
assign a=4'd5;assign b=$signed(a)<=$signed(a);assign c=a[2:1];assign d=$signed(a)>>>c;assign e={c,b,a};endmodule";
    let wanted = "module M(input wire clk, input wire rst);
wire [3:0] a;
wire b;
wire [1:0] c;
wire [3:0] d;
wire [6:0] e;
assign a = 4'd5;
assign b = $signed(a) <= $signed(a);
assign c = a[2:1];
assign d = $signed(a) >>> c;
assign e = {c, b, a};
endmodule
";
    assert_eq!(rt; printed(rt.alloc(), text)?.as_str(), wanted);
    Ok(())
}
