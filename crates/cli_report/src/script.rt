//! What a page does by itself: its pictures are zoomed and asked.

/// The script of the page. Where a tick stands in a picture it takes from the picture: from its
/// heading, and from the line below a row.
pub(crate) const SCRIPT: &str = r##"'use strict';
const ZOOM = 1.5, LEAST = 0.1, MOST = 12;

// The lines of a trace by their tick.
function linesByTick(trace) {
  const lines = new Map();
  for (const line of trace.textContent.split('\n')) {
    const tick = parseInt(line, 10);
    if (!Number.isNaN(tick)) lines.set(tick, (lines.get(tick) || []).concat(line));
  }
  return lines;
}

// Which ticks a picture has, and where they stand in it; null where it has none.
function ticksOf(svg) {
  const heading = /ticks (\d+) to (\d+)/.exec(svg.querySelector('.heading').textContent);
  const base = svg.querySelector('.base');
  if (!heading || !base) return null;
  const [left, , width] = base.getAttribute('d').match(/\d+/g).map(Number);
  const [first, last] = [Number(heading[1]), Number(heading[2])];
  return { first, last, left, cell: width / (last - first + 1) };
}

class Picture {
  constructor(figure) {
    this.box = figure.querySelector('.picture');
    this.svg = this.box.querySelector('svg');
    this.ticks = ticksOf(this.svg);
    this.lines = linesByTick(figure.querySelector('.trace'));
    this.size = this.svg.viewBox.baseVal;
    this.tick = null;
    this.build(figure.querySelector('h3').textContent);
    this.zoom(1);
  }

  // Adds what is used by pointer and keys alone.
  build(name) {
    const tools = document.createElement('div');
    tools.className = 'tools';
    this.button(tools, '\u2212', 'zoom out', () => this.zoom(this.scale / ZOOM));
    this.button(tools, '+', 'zoom in', () => this.zoom(this.scale * ZOOM));
    this.button(tools, '1:1', 'as it was', () => this.zoom(1));
    this.button(tools, 'fit', 'the whole width',
      () => this.zoom(this.box.clientWidth / this.size.width));
    this.asked = document.createElement('div');
    this.asked.className = 'asked';
    this.asked.setAttribute('aria-live', 'polite');
    this.box.before(tools);
    this.box.after(this.asked);
    this.box.tabIndex = 0;
    this.box.setAttribute('role', 'group');
    this.box.setAttribute('aria-label', 'Picture of ' + name + '; arrow keys ask its ticks');
    this.cursor = document.createElementNS(this.svg.namespaceURI, 'path');
    this.cursor.setAttribute('class', 'cursor');
    this.svg.append(this.cursor);
    this.svg.addEventListener('mousemove', event => this.point(event));
    this.box.addEventListener('keydown', event => this.press(event));
    this.box.addEventListener('wheel', event => this.wheel(event), { passive: false });
  }

  button(tools, text, label, action) {
    const button = document.createElement('button');
    button.type = 'button';
    button.textContent = text;
    button.title = label;
    button.setAttribute('aria-label', label);
    button.addEventListener('click', action);
    tools.append(button);
  }

  // Scales the picture; what stands at a place of the box stays there.
  zoom(scale, place = this.box.clientWidth / 2) {
    const next = Math.min(MOST, Math.max(LEAST, scale));
    const at = (this.box.scrollLeft + place) / (this.scale || next);
    this.scale = next;
    this.svg.style.width = this.size.width * next + 'px';
    this.svg.style.height = this.size.height * next + 'px';
    this.box.scrollLeft = at * next - place;
  }

  wheel(event) {
    if (!event.ctrlKey) return;
    event.preventDefault();
    const place = event.clientX - this.box.getBoundingClientRect().left;
    this.zoom(this.scale * (event.deltaY < 0 ? ZOOM : 1 / ZOOM), place);
  }

  // Asks what is under the pointer.
  point(event) {
    const x = (event.clientX - this.svg.getBoundingClientRect().left) / this.scale;
    const titleOf = element => element.querySelector(':scope > title');
    const title = titleOf(event.target) || titleOf(event.target.parentNode);
    if (this.ticks && x >= this.ticks.left) {
      const tick = this.ticks.first + Math.floor((x - this.ticks.left) / this.ticks.cell);
      if (tick <= this.ticks.last) this.ask(tick, title ? title.textContent : '');
    }
  }

  press(event) {
    const step = event.shiftKey ? 10 : 1;
    const keys = {
      ArrowLeft: () => this.go(this.tick === null ? this.ticks.first : this.tick - step),
      ArrowRight: () => this.go(this.tick === null ? this.ticks.first : this.tick + step),
      Home: () => this.go(this.ticks.first),
      End: () => this.go(this.ticks.last),
      '+': () => this.zoom(this.scale * ZOOM),
      '-': () => this.zoom(this.scale / ZOOM),
      0: () => this.zoom(1),
    };
    if (!this.ticks || event.ctrlKey || event.altKey || event.metaKey) return;
    if (!Object.hasOwn(keys, event.key)) return;
    event.preventDefault();
    keys[event.key]();
  }

  // Asks a tick by the keys, and brings it into sight.
  go(tick) {
    const near = Math.min(this.ticks.last, Math.max(this.ticks.first, tick));
    this.ask(near, '');
    const middle = this.middle(near) * this.scale;
    const { scrollLeft, clientWidth } = this.box;
    if (middle < scrollLeft || middle > scrollLeft + clientWidth) {
      this.box.scrollLeft = middle - clientWidth / 2;
    }
  }

  middle(tick) {
    return this.ticks.left + (tick - this.ticks.first + 0.5) * this.ticks.cell;
  }

  // Tells of a tick: what is under the pointer, and the lines of the trace.
  ask(tick, what) {
    this.tick = tick;
    const x = this.middle(tick);
    this.cursor.setAttribute('d', `M${x} 44V${this.size.height - 140}`);
    const lines = this.lines.get(tick) || [`${tick}: the run is over`];
    this.asked.textContent = (what ? [what, ...lines] : lines).join('\n');
  }
}

for (const figure of document.querySelectorAll('figure.run')) new Picture(figure);
"##;
